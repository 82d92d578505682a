//! The members that the objects of a request have.
ghost use Rattle.std.specs.Prelude.{◌≡◌};
ghost use Rattle.tb_request.specs.Promise.Members.{known_views};
ghost use Rattle.tb_delta_request.specs.Promise.Members.{delta_members, insert_members, remove_members};

use tb_request::{Form, Known, Word};

/// The members of a request to keep a join.
pub fn delta_members() -> &'static [Known]
    ensures { known_views result.now ≡ delta_members }
{
    &[
        Known::Optional("format", Form::Format),
        Known::Optional("join_nulls", Form::Truth),
        Known::Needed("left", Form::Object),
        Known::Needed("left_on", Form::Text),
        Known::Needed("right", Form::Object),
        Known::Needed("right_on", Form::Text),
        Known::Needed("steps", Form::Values),
    ]
}

/// The members of a step that puts a row in.
pub fn insert_members() -> &'static [Known]
    ensures { known_views result.now ≡ insert_members }
{
    &[
        Known::Needed("insert", Form::Word(Word::Side)),
        Known::Needed("row", Form::Values),
    ]
}

/// The members of a step that takes a row out.
pub fn remove_members() -> &'static [Known]
    ensures { known_views result.now ≡ remove_members }
{
    &[
        Known::Needed("id", Form::Count),
        Known::Needed("remove", Form::Word(Word::Side)),
    ]
}
