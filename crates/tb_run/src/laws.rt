//! Laws over what is due and what is done.
ghost use Rattle.std.specs.Prelude.{◌≡◌, List, ℕ, Option};
ghost use Rattle.tb_run.specs.declared.status.Status.{Status};
ghost use Rattle.tb_run.specs.declared.status.Status.TheVariants.{Done};
ghost use Rattle.tb_run.specs.declared.words.Command.TheVariants.{Join, Unpivot, Dummies, Pivot, Plan, Delta, Group};
ghost use Rattle.tb_run.specs.declared.words.Form.{Form};
ghost use Rattle.tb_run.specs.Promise.Due.{due, IsDue};
ghost use Rattle.tb_run.specs.Due.{DoneFor, IsValid};
ghost use Rattle.tb_run.specs.Forms.{TwoForms};
ghost use Rattle.tb_run.specs.Promise.Headline.{JoinDone, UnpivotDone, DummiesDone, PivotDone, PlanDone, DeltaDone, GroupDone};

pub use tb_json::laws::text_one_to_one;
use tb_value::PlSmallStr;

/// One status alone is due for the same words and bytes.
pub fn one_status(words: &[PlSmallStr], bytes: &[u8])
    ensures { (s s' : Status) (text text' : List ℕ) → due words.now bytes.now s text
        → due words.now bytes.now s' text' → s ≡ s' }
{}

/// What is due for a valid request is an answer: nothing refuses it.
pub fn valid_is_done()
    ensures { (asked : Form) (left left' : Option (List ℕ)) (s : Status) (text : List ℕ)
        → IsValid asked left → IsDue asked left left' s text → s ≡ Done }
{}

/// A request in runs is that with its values written out in one chunk, or none for the same reason, where no reason up to `Rows` holds.
pub fn two_forms()
    ensures { TwoForms }
{}

/// What `run` says of 0 under the word `join`, in the words of a join.
pub fn join_is_done()
    ensures { (left left' written written' : Option (List ℕ))
        → DoneFor Join left left' written written' → JoinDone left left' written written' }
{}

/// What `run` says of 0 under the word `unpivot`, in the words of a table that is made long.
pub fn unpivot_is_done()
    ensures { (left left' written written' : Option (List ℕ))
        → DoneFor Unpivot left left' written written' → UnpivotDone left left' written written' }
{}

/// What `run` says of 0 under the word `dummies`, in the words of a table whose columns are replaced.
pub fn dummies_is_done()
    ensures { (left left' written written' : Option (List ℕ))
        → DoneFor Dummies left left' written written' → DummiesDone left left' written written' }
{}

/// What `run` says of 0 under the word `pivot`, in the words of a table that is made wide.
pub fn pivot_is_done()
    ensures { (left left' written written' : Option (List ℕ))
        → DoneFor Pivot left left' written written' → PivotDone left left' written written' }
{}

/// What `run` says of 0 under the word `plan`, in the words of a plan.
pub fn plan_is_done()
    ensures { (left left' written written' : Option (List ℕ))
        → DoneFor Plan left left' written written' → PlanDone left left' written written' }
{}

/// What `run` says of 0 under the word `delta`, in the words of a join that is kept.
pub fn delta_is_done()
    ensures { (left left' written written' : Option (List ℕ))
        → DoneFor Delta left left' written written' → DeltaDone left left' written written' }
{}

/// What `run` says of 0 under the word `group`, in the words of a table that is grouped.
pub fn group_is_done()
    ensures { (left left' written written' : Option (List ℕ))
        → DoneFor Group left left' written written' → GroupDone left left' written written' }
{}
