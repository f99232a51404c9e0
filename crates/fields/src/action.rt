// Reading an action: its precondition, its effect count and its effects.
ghost use Rattle.std.specs.Prelude.{◌≡◌};
ghost use Rattle.model.specs.ProblemBytes.{effects, effect_list, action};
ghost use Rattle.formula.specs.Readings.{forgotten, position_read};
ghost use Rattle.fields.specs.Effects.{EffectRead};

use crate::header::count_at;
use formula::{is_literal, read_formula};
use model::{Fault, Limits, Refusal};

// The effect at `at`, whose literal's byte is `least` or more: the position after it.
#[inline(always)]
fn read_effect(s: &[u8], at: usize, facts: u8, least: usize) -> Result<usize, Refusal>
    ensures { EffectRead s.now facts least at result }
{
    if s.len() <= at {
        return Err(Fault::BlockEnds.at_byte(s.len()));
    }
    let b = s[at];
    if !is_literal(b, facts) {
        return Err(Fault::EffectLiteral.at_byte(at));
    }
    if (b as usize) < least {
        return Err(Fault::EffectOrder.at_byte(at));
    }
    read_formula(s, at + 1, facts)
}

// n effects from `at` on, whose literals rise strictly: the position after them.
fn read_effects(s: &[u8], at: usize, facts: u8, n: u8) -> Result<usize, Refusal>
    ensures { position_read result ≡ forgotten (effects s.now facts n 0 at) }
{
    let mut begin = at;
    let mut least: usize = 0;
    for _ in 0..n {
        let next = read_effect(s, begin, facts, least)?;
        least = s[begin] as usize + 1;
        begin = next;
    }
    Ok(begin)
}

// The effect count at `at`, and the effects after it: the position after them.
fn read_effect_list(s: &[u8], limits: Limits, at: usize, facts: u8) -> Result<usize, Refusal>
    ensures { position_read result ≡ forgotten (effect_list limits s.now facts at) }
{
    let n = count_at(s, at, Fault::EffectCount, 0, limits.effects)?;
    read_effects(s, at + 1, facts, n)
}

// The action at `at`: the position after it.
pub fn read_action(s: &[u8], limits: Limits, at: usize, facts: u8) -> Result<usize, Refusal>
    ensures { position_read result ≡ forgotten (action limits s.now facts at) }
{
    let next = read_formula(s, at, facts)?;
    read_effect_list(s, limits, next, facts)
}
