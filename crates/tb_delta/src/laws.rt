//! What holds of states and of what is kept of them, each as the contract of a function.
ghost use Rattle.tb_delta.specs.Laws.{MadeAnew};

/// A view that is made of the tables of the rows that there are keeps the same join as the view that was kept.
pub fn made_anew()
    ensures { MadeAnew }
{}
