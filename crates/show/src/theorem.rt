// How long a shown text is at most: a theorem is the contract of a function, which has nothing to do: a check that passes has proved it.
ghost use Rattle.show.specs.TextLength.{ProblemIsShort, PlanIsShort};

// What is shown is no longer than so many bytes, whatever names it is shown with.
pub fn shown_is_short()
    ensures problem { ProblemIsShort }
    ensures plan { PlanIsShort }
{}
