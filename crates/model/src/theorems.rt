// The theorems about the definitions. Each is the contract of a function, which has nothing to do: a check that passes has proved it.
ghost use Rattle.model.specs.Theorems.{Theorems, TrialsHold};

// What the operations guarantee, and what is said of every width, fact count and look.
pub fn guarantees_hold()
    ensures { Theorems }
{}

// The trial tables.
pub fn trials_hold()
    ensures { TrialsHold }
{}
