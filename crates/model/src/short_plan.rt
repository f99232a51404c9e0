// A plan that a search tries.
ghost use Rattle.std.specs.Prelude.{◌≡◌, ◌≤◌, ◌<◌, [], ◌∷◌, ◌++◌, length};
ghost use Rattle.model.specs.Limits.{max_length};

use std::marker::Model;

// A plan of at most `MAX_STEPS` steps: the first `count` are its own, and 0 stands past them.
#[derive(Clone, Copy)]
pub struct ShortPlan {
    count: usize,
    steps: [u8; ShortPlan::MAX_STEPS],
}

impl Model for ShortPlan {
    ghost use Rattle.std.specs.Prelude.{List, ℕ, length, take};
    ghost use Rattle.model.specs.ShortPlans.{HoldsPlan, padded, length-taken, padded-taken};

    // Its steps.
    ghost Value = { List ℕ };

    ghost view = { λ p. take p.count p.steps };

    ghost invariant = { λ p. HoldsPlan p.count p.steps };

    ghost inverse = { λ l. record { count = length l; steps = padded l } };

    ghost inverse_ok = { λ p h i. record { count = length-taken p.count p.steps h i; steps = padded-taken p.count p.steps h i } };
}

impl ShortPlan {
    pub const MAX_STEPS: usize = 4;

    // The plans that a search may have to try.
    pub const MAX_PLANS: u64 = 1000000;

    // The plan of no step.
    pub fn empty() -> ShortPlan
        ensures { result ≡ [] }
    {
        ShortPlan {
            count: 0,
            steps: [0; ShortPlan::MAX_STEPS],
        }
    }

    // How many steps it has.
    pub fn len(&self) -> usize
        ensures is { result ≡ length self.now }
        ensures few { result ≤ max_length }
    {
        self.count
    }

    // Its steps.
    pub fn steps(&self) -> &[u8]
        ensures { result.now ≡ self.now }
    {
        &self.steps[..self.count]
    }

    // It with a step more.
    #[inline(always)]
    pub fn extended(self, step: u8) -> ShortPlan
        requires { length self < max_length }
        ensures { result ≡ self ++ step ∷ [] }
    {
        let count = self.count;
        let mut steps = self.steps;
        steps[count] = step;
        ShortPlan {
            count: count + 1,
            steps,
        }
    }
}
