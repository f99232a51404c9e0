// What is shown may be read as a text: a theorem is the contract of a function, which has nothing to do.
ghost use Rattle.texts.specs.MayBeRead.{ShownMayBeRead, ShownPlanMayBeRead};

// What is shown is at most as long as the file of a text may be.
pub fn shown_may_be_read()
    ensures problem { ShownMayBeRead }
    ensures plan { ShownPlanMayBeRead }
{}
