//! What holds of the definitions of tables and of the arguments of a join, each as the contract of a function.
ghost use Rattle.std.specs.Prelude.{◌≡◌, ◌↔◌, IsTrue, ℕ, ℤ, List, length, map};
ghost use Rattle.tb_chunk.specs.Window.{window};
ghost use Rattle.tb_value.specs.Promise.Names.{Name};
ghost use Rattle.tb_frame.specs.Promise.Join.{slice};
ghost use Rattle.tb_frame.specs.Promise.Naming.{Field, answer_fields};
ghost use Rattle.tb_frame.specs.Naming.{answer_names};
ghost use Rattle.tb_frame.specs.declared.args.JoinArgs.{JoinArgs};

use crate::args::{JoinCoalesce, JoinType, JoinValidation, MaintainOrderJoin};

/// The rows that a slice keeps are those from one place up to another.
pub fn slice_is_window<T>()
    ensures { (xs : List T) (offset : ℤ) (len : ℕ)
        → slice xs offset len ≡ window (length xs) offset len xs }
{}

/// The names of an answer's columns are those that its names and types have first.
pub fn names_of_fields()
    ensures { (a : JoinArgs) → (left_on right_on : List Name) → (left right : List Field)
        → map (λ (f : Field). f.0) (answer_fields a left_on right_on left right)
        ≡ answer_names a left_on right_on (map (λ (f : Field). f.0) left) (map (λ (f : Field). f.0) right) }
{}

/// Kinds of joins are equal where contracts see the same.
pub fn same_hows(a: &JoinType, b: &JoinType) -> bool
    ensures { IsTrue result ↔ (a.now ≡ b.now) }
{
    a == b
}

/// Validations are equal where contracts see the same.
pub fn same_validations(a: &JoinValidation, b: &JoinValidation) -> bool
    ensures { IsTrue result ↔ (a.now ≡ b.now) }
{
    a == b
}

/// Ways to coalesce keys are equal where contracts see the same.
pub fn same_coalesces(a: &JoinCoalesce, b: &JoinCoalesce) -> bool
    ensures { IsTrue result ↔ (a.now ≡ b.now) }
{
    a == b
}

/// Orders of rows are equal where contracts see the same.
pub fn same_orders(a: &MaintainOrderJoin, b: &MaintainOrderJoin) -> bool
    ensures { IsTrue result ↔ (a.now ≡ b.now) }
{
    a == b
}
