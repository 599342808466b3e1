//! What follows from the definitions of escalations. The functions do nothing: each stands for its clause.

ghost use Rattle.escalations.specs.Laws.{LastStepsSuffice};

/// Of the steps that ran, the last one of each action is enough: where the numbers of the others rise up to it, the same
/// steps are due, and the same recovery messages are sent.
pub fn last_steps_suffice()
    ensures { LastStepsSuffice }
{}
