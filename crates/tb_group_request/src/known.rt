//! The members that the objects of a request have.
ghost use Rattle.std.specs.Prelude.{◌≡◌};
ghost use Rattle.tb_request.specs.Promise.Members.{known_views};
ghost use Rattle.tb_group_request.specs.Promise.Members.{agg_members, group_members};

use tb_request::{Form, Known, Word};

/// The members of a request to group a table.
pub fn group_members() -> &'static [Known]
    ensures { known_views result.now ≡ group_members }
{
    &[
        Known::Needed("aggs", Form::Values),
        Known::Needed("by", Form::Texts),
        Known::Optional("exec", Form::Object),
        Known::Optional("format", Form::Format),
        Known::Needed("table", Form::Object),
        Known::Optional("trace", Form::Truth),
    ]
}

/// The members of a column that is made.
pub fn agg_members() -> &'static [Known]
    ensures { known_views result.now ≡ agg_members }
{
    &[
        Known::Needed("agg", Form::Word(Word::Aggregate)),
        Known::Needed("column", Form::Text),
        Known::Needed("name", Form::Text),
    ]
}
