// An evaluation by steps, as definitions: what is held between steps, what a step makes of it, and that this gives the outcome.
#![tactic(auto)]

ghost use Rattle.std.specs.Prelude.{◌≡◌};
ghost use Rattle.machine.specs.Bounds.{asked_limit};
ghost use Rattle.machine.specs.Theorems.{StepsShowTheOutcome, StepsTakenAreReported, StepsAddUp, StoreIsAskedWithinLimit};

/// Steps show the outcome once as many are taken as it takes; and so many are taken, however they are granted.
pub fn steps_show_the_outcome()
    ensures { (StepsShowTheOutcome) × ((StepsTakenAreReported) × (StepsAddUp)) }
{}

/// A step asks the store no more than 6,241 times: once for its look-up, and for at most 64 items and the end of each of 96 open sentences.
pub fn store_is_asked_within_limit()
    ensures { (StoreIsAskedWithinLimit) × (asked_limit ≡ 6241) }
{}
