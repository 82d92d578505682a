//! The members that the objects of a request have.
ghost use Rattle.std.specs.Prelude.{◌≡◌};
ghost use Rattle.tb_json.specs.Promise.Lists.{is_among};
ghost use Rattle.tb_request.specs.Promise.Members.{known_view, known_views, names_of, args_members, column_members, dummies_members, exec_members, join_members, pivot_members, standing_members, table_members, unpivot_members};

use crate::shape::Format;

/// A choice of words.
#[derive(Clone, Copy)]
pub enum Word {
    /// The kinds of joins.
    How,
    /// On which sides no two rows may have equal keys.
    Validation,
    /// Whether two keys become one column.
    Coalesce,
    /// By which rows an answer is ordered.
    Order,
    /// The order in which the values of a column are.
    Sorted,
    /// What becomes of the values of a cell, or of a group.
    Aggregate,
    /// The sides of a join.
    Side,
    /// Whether a field is absent.
    Test,
}

/// A form that a value may have.
#[derive(Clone, Copy)]
pub enum Form {
    Object,
    /// A list.
    Values,
    /// A list of lists.
    Chunks,
    /// A list of runs, each of which is looked at by itself.
    Runs,
    Text,
    /// A list of texts.
    Texts,
    Truth,
    /// A truth value, or a list.
    Nulls,
    /// A type of columns.
    Type,
    /// The number of a format in which columns are written.
    Format,
    /// An offset of 64 bits and a length of 64 bits without sign.
    Slice,
    /// A whole number below 2^32.
    Count,
    /// A whole number from 1 to 1024.
    Workers,
    /// A whole number from 1 to 2^32 - 1.
    Divisor,
    /// A word that asks whether a field is absent, or an object, which is looked at by itself.
    Test,
    /// What a field may be compared with: a truth value, a text or a whole number of 64 bits, with or without sign.
    Compared,
    Word(Word),
}

/// A member that an object may have, by its name, and the form of its value.
#[derive(Clone, Copy)]
pub enum Known {
    /// The object must have it.
    Needed(&'static str, Form),
    Optional(&'static str, Form),
}

impl Known {
    pub fn name(&self) -> &'static str
        ensures { result.now ≡ (known_view self.now).name }
    {
        match self {
            Known::Needed(name, _) | Known::Optional(name, _) => *name,
        }
    }

    pub fn is_needed(&self) -> bool
        ensures { result ≡ (known_view self.now).needed }
    {
        match self {
            Known::Needed(_, _) => true,
            Known::Optional(_, _) => false,
        }
    }

    pub fn form(&self) -> Form
        ensures { result ≡ (known_view self.now).form }
    {
        match self {
            Known::Needed(_, form) | Known::Optional(_, form) => *form,
        }
    }
}

/// Whether the name is that of one of the members.
pub fn is_among(name: &str, known: &[Known]) -> bool
    ensures { result ≡ is_among name.now (names_of (known_views known.now)) }
{
    for one in known {
        if name == one.name() {
            return true;
        }
    }
    false
}

/// The members of a column.
pub fn column_members(format: Format) -> &'static [Known]
    ensures { known_views result.now ≡ column_members format }
{
    match format {
        Format::Chunks => &[
            Known::Needed("chunks", Form::Chunks),
            Known::Needed("name", Form::Text),
            Known::Optional("sorted", Form::Word(Word::Sorted)),
            Known::Needed("type", Form::Type),
        ],
        Format::Runs => &[
            Known::Needed("name", Form::Text),
            Known::Needed("runs", Form::Runs),
            Known::Optional("sorted", Form::Word(Word::Sorted)),
            Known::Needed("type", Form::Type),
        ],
    }
}

/// The members of a table.
pub fn table_members() -> &'static [Known]
    ensures { known_views result.now ≡ table_members }
{
    &[Known::Needed("columns", Form::Values)]
}

/// The arguments of a join.
pub fn args_members() -> &'static [Known]
    ensures { known_views result.now ≡ args_members }
{
    &[
        Known::Optional("coalesce", Form::Word(Word::Coalesce)),
        Known::Needed("how", Form::Word(Word::How)),
        Known::Optional("join_nulls", Form::Nulls),
        Known::Optional("maintain_order", Form::Word(Word::Order)),
        Known::Optional("slice", Form::Slice),
        Known::Optional("suffix", Form::Text),
        Known::Optional("validation", Form::Word(Word::Validation)),
    ]
}

/// The numbers by which work is run.
pub fn exec_members() -> &'static [Known]
    ensures { known_views result.now ≡ exec_members }
{
    &[
        Known::Needed("den", Form::Count),
        Known::Needed("num", Form::Count),
        Known::Needed("partitions", Form::Count),
        Known::Needed("small", Form::Count),
        Known::Needed("workers", Form::Count),
    ]
}

/// The same, as `Exec::new` wants them.
pub fn standing_members() -> &'static [Known]
    ensures { known_views result.now ≡ standing_members }
{
    &[
        Known::Needed("den", Form::Divisor),
        Known::Needed("num", Form::Count),
        Known::Needed("partitions", Form::Workers),
        Known::Needed("small", Form::Count),
        Known::Needed("workers", Form::Workers),
    ]
}

/// The members of a request to join.
pub fn join_members() -> &'static [Known]
    ensures { known_views result.now ≡ join_members }
{
    &[
        Known::Needed("args", Form::Object),
        Known::Optional("exec", Form::Object),
        Known::Optional("format", Form::Format),
        Known::Needed("left", Form::Object),
        Known::Needed("left_on", Form::Texts),
        Known::Needed("right", Form::Object),
        Known::Needed("right_on", Form::Texts),
        Known::Optional("trace", Form::Truth),
    ]
}

/// The members of a request to make a table long.
pub fn unpivot_members() -> &'static [Known]
    ensures { known_views result.now ≡ unpivot_members }
{
    &[
        Known::Optional("format", Form::Format),
        Known::Needed("index", Form::Texts),
        Known::Needed("on", Form::Texts),
        Known::Needed("table", Form::Object),
        Known::Optional("value_name", Form::Text),
        Known::Optional("variable_name", Form::Text),
    ]
}

/// The members of a request for dummies.
pub fn dummies_members() -> &'static [Known]
    ensures { known_views result.now ≡ dummies_members }
{
    &[
        Known::Optional("columns", Form::Texts),
        Known::Optional("drop_first", Form::Truth),
        Known::Optional("format", Form::Format),
        Known::Optional("separator", Form::Text),
        Known::Needed("table", Form::Object),
    ]
}

/// The members of a request to make a table wide.
pub fn pivot_members() -> &'static [Known]
    ensures { known_views result.now ≡ pivot_members }
{
    &[
        Known::Optional("agg", Form::Word(Word::Aggregate)),
        Known::Optional("format", Form::Format),
        Known::Optional("index", Form::Texts),
        Known::Needed("on", Form::Texts),
        Known::Optional("separator", Form::Text),
        Known::Optional("sort_columns", Form::Truth),
        Known::Needed("table", Form::Object),
        Known::Optional("values", Form::Texts),
    ]
}
