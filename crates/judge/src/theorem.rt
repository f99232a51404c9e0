// What survives when a question is put again, as the contract of a function, which has nothing to do: a check that passes has proved it.
ghost use Rattle.std.specs.Prelude.{◌≡◌, List, ℕ, ◌≤◌};
ghost use Rattle.model.specs.declared.Limits.{Limits};
ghost use Rattle.model.specs.Limits.{limits_of};
ghost use Rattle.model.specs.Answer.{Answer};
ghost use Rattle.model.specs.Case.{Task};
ghost use Rattle.model.specs.WellFormed.{Sensible, ReadOk};
ghost use Rattle.judge.specs.Survival.{LargerGrant, SearchedAgain, NarrowerStart, Narrowed, NarrowedAlike};

// A verdict, and what rests on one, under a larger grant and for a narrower start, of every problem and in either version.
pub fn verdicts_survive()
    ensures grant { (F : Limits) → Sensible F → (R : Answer Task) → ReadOk F R → (grant larger : ℕ) → grant ≤ larger → LargerGrant F R grant larger }
    ensures search { (problem : List ℕ) (grant larger : ℕ) → grant ≤ larger → SearchedAgain problem grant larger }
    ensures start { (problem narrower : List ℕ) → NarrowerStart problem narrower → Narrowed problem narrower }
    ensures alike { (problem narrower : List ℕ) (N : NarrowerStart problem narrower) → limits_of narrower ≡ limits_of problem → NarrowedAlike problem narrower N }
{}
