// What holds of a merged problem, as the contract of a function, which has nothing to do: a check that passes has proved it.
ghost use Rattle.std.specs.Prelude.{List, ℕ};
ghost use Rattle.merge.specs.Promise.{KeepsBoth};

// The merged problem of two is both of them, beside one another.
pub fn both_halls_are_kept()
    ensures { (first second : List ℕ) → KeepsBoth first second }
{}
