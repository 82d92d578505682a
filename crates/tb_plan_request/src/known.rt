//! The members that the objects of a request have.
ghost use Rattle.std.specs.Prelude.{◌≡◌};
ghost use Rattle.tb_request.specs.Promise.Members.{known_views};
ghost use Rattle.tb_plan_request.specs.Promise.Members.{entry_members, eq_members, filter_members, join_node_members, less_members, pivot_args_members, plan_members, table_node_members};

use tb_request::{Form, Known, Word};

/// The members of a request of a plan.
pub fn plan_members() -> &'static [Known]
    ensures { known_views result.now ≡ plan_members }
{
    &[
        Known::Optional("exec", Form::Object),
        Known::Optional("format", Form::Format),
        Known::Optional("pivot", Form::Object),
        Known::Optional("push", Form::Truth),
        Known::Needed("root", Form::Object),
        Known::Needed("tables", Form::Values),
    ]
}

/// The members of a table under its name.
pub fn entry_members() -> &'static [Known]
    ensures { known_views result.now ≡ entry_members }
{
    &[
        Known::Needed("name", Form::Text),
        Known::Needed("table", Form::Object),
    ]
}

/// The arguments of a pivot.
pub fn pivot_args_members() -> &'static [Known]
    ensures { known_views result.now ≡ pivot_args_members }
{
    &[
        Known::Optional("agg", Form::Word(Word::Aggregate)),
        Known::Optional("index", Form::Texts),
        Known::Needed("on", Form::Texts),
        Known::Optional("separator", Form::Text),
        Known::Optional("sort_columns", Form::Truth),
        Known::Optional("values", Form::Texts),
    ]
}

/// The members of a node that is a table.
pub fn table_node_members() -> &'static [Known]
    ensures { known_views result.now ≡ table_node_members }
{
    &[Known::Needed("table", Form::Text)]
}

/// The members of a node that is a filter.
pub fn filter_members() -> &'static [Known]
    ensures { known_views result.now ≡ filter_members }
{
    &[
        Known::Needed("column", Form::Text),
        Known::Needed("input", Form::Object),
        Known::Needed("test", Form::Test),
    ]
}

/// The members of a node that is a join.
pub fn join_node_members() -> &'static [Known]
    ensures { known_views result.now ≡ join_node_members }
{
    &[
        Known::Needed("args", Form::Object),
        Known::Needed("left", Form::Object),
        Known::Needed("left_on", Form::Texts),
        Known::Needed("right", Form::Object),
        Known::Needed("right_on", Form::Texts),
    ]
}

/// The member of a test for equality.
pub fn eq_members() -> &'static [Known]
    ensures { known_views result.now ≡ eq_members }
{
    &[Known::Needed("eq", Form::Compared)]
}

/// The member of a test by order.
pub fn less_members() -> &'static [Known]
    ensures { known_views result.now ≡ less_members }
{
    &[Known::Needed("less", Form::Compared)]
}
