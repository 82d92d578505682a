//! What holds of the definitions, each as the contract of an empty function.
ghost use Rattle.tb_why.specs.Laws.{EachReasonHasAPlace};

/// Where a JSON value is no request, a place is found in it for the reason, which is the whole exactly where that is no
/// object.
pub fn each_reason_has_a_place()
    ensures { EachReasonHasAPlace }
{}
