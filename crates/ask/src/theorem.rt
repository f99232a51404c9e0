// What is told of a run is what it is, and a reply stays under a larger grant: contracts of functions, which have nothing to do. A check that
// passes has proved them.
ghost use Rattle.std.specs.Prelude.{Bool, ℕ, ◌≤◌, Option};
ghost use Rattle.names.specs.Names.{Names};
ghost use Rattle.ask.specs.TellsRun.{TellsTheRun};
ghost use Rattle.ask.specs.AskedAgain.{AskedAgain};

use crate::question::Blocks;

// The states that are told after the facts on which a run rests are those of the run.
pub fn tells_the_run()
    ensures { TellsTheRun }
{}

// What is replied to a command that takes a grant stays as it is under every larger one, unless it is undecided.
pub fn replies_survive()
    ensures { (json : Bool) (given : Option Names) (b : Blocks) (grant larger : ℕ) → grant ≤ larger → AskedAgain json given b grant larger }
{}
