// The theorems of the text: each is the contract of a function, which has nothing to do: a check that passes has proved it.
ghost use Rattle.make.specs.RoundTrip.{ShownIsMade, ShownPlanIsMade, NumbersAreNames, MadeIsRead};

// What is shown is made again: the same block, byte for byte.
pub fn shown_is_made()
    ensures problem { ShownIsMade }
    ensures plan { ShownPlanIsMade }
    ensures numbers { NumbersAreNames }
{}

// What is made is read.
pub fn made_is_read()
    ensures { MadeIsRead }
{}
