// What the writer and the checker of lists promise together, as the contract of a function, which has nothing to do: a check that passes has
// proved it.
ghost use Rattle.std.specs.Prelude.{List, ℕ};
ghost use Rattle.model.specs.declared.Limits.{Limits};
ghost use Rattle.model.specs.Limits.{limits_of};
ghost use Rattle.model.specs.Answer.{Answer};
ghost use Rattle.model.specs.Case.{Task};
ghost use Rattle.model.specs.WellFormed.{Sensible, ReadOk};
ghost use Rattle.model.specs.Operations.{read_both};
ghost use Rattle.certificate.specs.Promise.{Promised};

// What writing and following promise together, of every task, whoever read it, and so of every problem and plan.
pub fn lists_hold()
    ensures tasks { (F : Limits) → Sensible F → (R : Answer Task) → ReadOk F R → Promised F R }
    ensures blocks { (problem plan : List ℕ) → Promised (limits_of problem) (read_both problem plan) }
{}
