// Actions as they stand in a block.
ghost use Rattle.std.specs.Prelude.{◌<◌, ◌≤◌, IsTrue};
ghost use Rattle.model.specs.Limits.{max_facts, max_effects};
ghost use Rattle.model.specs.FormulaBytes.{is_literal};
ghost use Rattle.fields.specs.ActionBytes.{is_stated, are_effects};

use formula::{Formula, Literal};

// The effects that begin the bytes, so many, over so many facts.
#[derive(Clone, Copy)]
pub struct Effects<'a> {
    pub count: u8,
    pub facts: u8,
    bytes: &'a [u8],
    pub ghost few: { count ≤ max_effects },
    pub ghost few_facts: { facts ≤ max_facts },
    ghost sound: { IsTrue (are_effects facts 0 count bytes.now) },
}

// A literal of one of so many facts, and its condition.
#[derive(Clone, Copy)]
pub struct Effect<'a> {
    pub literal: Literal,
    pub facts: u8,
    pub condition: Formula<'a>,
    pub ghost few_facts: { facts ≤ max_facts },
    pub ghost declared: { IsTrue (is_literal facts literal.byte) },
}

// A formula, and the bytes after it.
#[derive(Clone, Copy)]
pub struct Cut<'a> {
    pub formula: Formula<'a>,
    pub rest: &'a [u8],
}

#[derive(Clone, Copy)]
pub struct Action<'a> {
    pub precondition: Formula<'a>,
    pub effects: Effects<'a>,
}

impl<'a> Action<'a> {
    ghost use Rattle.std.specs.Prelude.{◌≡◌};
    ghost use Rattle.fields.specs.ActionBytes.{is_action, action_of};
    ghost use Rattle.fields.specs.Actions.{action};

    // The action that begins the bytes, over so many facts.
    #[inline(always)]
    pub fn of(bytes: &'a [u8], facts: u8) -> Action<'a>
        requires few { facts ≤ max_facts }
        requires sound { IsTrue (is_action facts bytes.now) }
        ensures is { action result ≡ action_of bytes.entry.now }
        ensures facts { result.effects.facts ≡ facts }
    {
        let cut = Cut::of(bytes);
        Action {
            precondition: cut.formula,
            effects: Effects {
                count: cut.rest[0],
                facts,
                bytes: &cut.rest[1..],
            },
        }
    }
}

impl<'a> Cut<'a> {
    ghost use Rattle.fields.specs.Actions.{IsCut};

    // The formula whose length field begins the bytes.
    #[inline(always)]
    pub fn of(bytes: &'a [u8]) -> Cut<'a>
        requires { IsTrue (is_stated bytes.now) }
        ensures { IsCut bytes.entry.now result }
    {
        let n = bytes[0] as usize * 256 + bytes[1] as usize;
        let after = &bytes[2..];
        Cut {
            formula: Formula::of(&after[..n]),
            rest: &after[n..],
        }
    }
}

impl<'a> Iterator for Effects<'a> {
    ghost use Rattle.std.specs.Iterator.{YieldsFirstBy, item_count};
    ghost use Rattle.fields.specs.Actions.{effect, effects};

    type Item = Effect<'a>;

    ghost next_gives = { YieldsFirstBy effect effects };

    ghost remaining = { item_count effects };

    #[inline(always)]
    fn next(&mut self) -> Option<Effect<'a>> {
        if self.count == 0 {
            return None;
        }
        let literal = Literal::of(self.bytes[0]);
        let cut = Cut::of(&self.bytes[1..]);
        let facts = self.facts;
        *self = Effects {
            count: self.count - 1,
            facts,
            bytes: cut.rest,
        };
        Some(Effect {
            literal,
            facts,
            condition: cut.formula,
        })
    }
}
