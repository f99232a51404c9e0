// Rows of the trial tables that take long to compute (specs/Sizes.antt) or belong to theorems of the code (specs/Survival.antt), apart from
// model, so that model's edits need not.

#![tactic(auto)]

ghost use Rattle.trials.specs.Sizes.{SizesHold};
ghost use Rattle.trials.specs.Survival.{SurvivalsHold};

// The rows at the formats' full sizes.
pub fn sizes_hold()
    ensures { SizesHold }
{}

// The rows of what survives a narrower start, and what does not.
pub fn survivals_hold()
    ensures { SurvivalsHold }
{}
