// A literal: a fact, or the denial of one.
ghost use Rattle.std.specs.Prelude.{◌<◌};

use model::Problem;

// It is known by its byte: a fact's is the fact's number, and its denial's is DENIAL more.
#[derive(Clone, Copy)]
pub struct Literal {
    byte: u8,
    pub ghost one: { byte < 128 },
}

impl Literal {
    ghost use Rattle.std.specs.Prelude.{◌≡◌};
    ghost use Rattle.model.specs.Limits.{max_facts};
    ghost use Rattle.model.specs.Relevance.{fact_of};
    ghost use Rattle.formula.specs.Views.{literal, is_denial};

    // So much more is the byte of a fact's denial than the fact's.
    pub const DENIAL: u8 = Problem::MAX_FACTS_V2;

    // The bytes of literals are those below this one.
    pub const COUNT: u8 = 2 * Literal::DENIAL;

    // The literal with this byte.
    #[inline(always)]
    pub fn of(byte: u8) -> Literal
        requires { byte < 128 }
        ensures { result.byte ≡ byte }
    {
        Literal { byte }
    }

    #[inline(always)]
    pub fn byte(self) -> u8
        ensures { result ≡ self.byte }
    {
        self.byte
    }

    // The fact that it is, or denies.
    #[inline(always)]
    pub fn fact(self) -> u8
        ensures few { result < max_facts }
        ensures is { result ≡ fact_of (literal self) }
    {
        self.byte % Literal::DENIAL
    }

    #[inline(always)]
    pub fn is_denial(self) -> bool
        ensures { result ≡ is_denial (literal self) }
    {
        Literal::DENIAL <= self.byte
    }
}
