//! What holds of requests, each as the contract of a function.
ghost use Rattle.tb_group_request.specs.Laws.{TwoForms};

/// A request whose columns are written in runs is the one with these values in chunks.
pub fn two_forms()
    ensures { TwoForms }
{}
