// What is told of a run is what it is. Each is the contract of a function, which has nothing to do: a check that passes has proved it.
ghost use Rattle.explain.specs.Rows.{RowsAreStates};
ghost use Rattle.explain.specs.Ending.{EndsAsTheRun};

// The states that are told of are those of the run.
pub fn rows_are_states()
    ensures { RowsAreStates }
{}

// It ends in the block or the missed goal with which the run ends.
pub fn ends_as_the_run()
    ensures { EndsAsTheRun }
{}
