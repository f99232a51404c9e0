// Formulas in a text, as the bytes that they have in a block.
ghost use Rattle.std.specs.Prelude.{◌≡◌, ◌≤◌, ◌<◌, length, IfSome, map, option_map};
ghost use Rattle.words.specs.Words.{word, after_word, left_at};
ghost use Rattle.model.specs.Limits.{max_facts};
ghost use Rattle.model.specs.Marks.{group_of};
ghost use Rattle.make.specs.FormulaText.{index_of, group_word};

use model::{Group, Problem};
use numbers::put_number;
use std::alloc::Global;
use words::{Complaint, MakeError, Text, Word};

// Takes the next word of a text.
pub fn next_word<'a>(text: &mut Text<'a>) -> Word<'a>
    ensures bytes { result.bytes.now ≡ word text.old.bytes.now }
    ensures left { result.left ≡ left_at text.old.bytes.now }
    ensures after { text.new.bytes.now ≡ after_word text.old.bytes.now }
{
    let word = text.word();
    *text = word.after;
    word
}

// The number of a name: how many there are before it.
pub fn index_of(names: &[&[u8]], word: &[u8]) -> Option<usize>
    ensures value { result ≡ index_of (map (λ s. s.now) names.now) word.now }
    ensures within { IfSome result (λ i. i < length names.now) }
{
    for (index, name) in names.iter().enumerate() {
        if *name == word {
            return Some(index);
        }
    }
    None
}

// The group that a word begins.
#[tactic(auto, unfolding(crate::specs::FormulaText::group_word))]
fn group_word(word: &[u8]) -> Option<Group>
    ensures { option_map group_of result ≡ group_word word.now }
{
    if word == b"all".as_slice() {
        return Some(Group::All);
    }
    if word == b"any".as_slice() {
        return Some(Group::Any);
    }
    None
}

// The facts that formulas speak of, by their names.
#[derive(Clone, Copy)]
pub struct FactNames<'a> {
    pub alloc: Global,
    pub names: &'a [&'a [u8]],
    pub ghost few: { length names.now ≤ max_facts },
}

// A count of members is a byte.
const MOST_MEMBERS: u8 = Problem::MAX_MEMBERS as u8;

// Members or effects: how many they are, and their bytes, one after the other.
#[derive(Drop)]
pub struct Counted {
    pub count: u8,
    pub bytes: Vec<u8>,
}

impl FactNames<'_> {
    ghost use Rattle.model.specs.Limits.{max_members};
    ghost use Rattle.model.specs.FormulaBytes.{mark, literal_byte};
    ghost use Rattle.make.specs.FormulaText.{literal_named, leaf, members as members_of, group as group_text, item, formula, formula_after};
    ghost use Rattle.make.specs.Reads.{Reads};
    ghost use Rattle.make.specs.Views.{fact_names, IsFormula, AreMembers, IsField};

    // The number of a fact.
    pub fn fact(&self, name: &[u8]) -> Option<u8>
        ensures value { result ≡ index_of (fact_names self.now) name.now }
        ensures small { IfSome result (λ f. f < max_facts) }
    {
        Some(index_of(self.names, name)? as u8)
    }

    // The byte of the literal that a word is.
    fn literal(&self, word: &[u8]) -> Option<u8>
        ensures { result ≡ option_map literal_byte (literal_named (fact_names self.now) word.now) }
    {
        match word {
            [] => None,
            [b'!', name @ ..] => Some(self.fact(name)? + Problem::SLOTS as u8),
            _ => self.fact(word),
        }
    }

    // A literal as a formula.
    fn leaf(&self, text: &mut Text) -> Result<Vec<u8>, MakeError>
        ensures { Reads (leaf (fact_names self.now) text.old.bytes.now) result text.new.bytes.now IsFormula }
    {
        let word = next_word(text);
        let Some(literal) = self.literal(word.bytes) else {
            return Err(Complaint::UnknownFact.at(word.left));
        };
        let mut bytes = Vec::new(self.alloc);
        bytes.push(literal)?;
        Ok(bytes)
    }

    // The members of a group, past its closing bracket, where `left` more groups may stand in one another.
    #[cycle(formulas)]
    fn members(&self, group: Group, left: u8, text: &mut Text) -> Result<Counted, MakeError>
        ensures { Reads (members_of (fact_names self.now) (item (fact_names self.now) left (mark (group_of group))) max_members text.old.bytes.now) result text.new.bytes.now AreMembers }
    {
        let mut members = Counted {
            count: 0,
            bytes: Vec::new(self.alloc),
        };
        loop {
            let word = text.word();
            if word.bytes == b")".as_slice() {
                *text = word.after;
                return Ok(members);
            }
            if members.count == MOST_MEMBERS {
                return Err(Complaint::TooManyMembers.at(word.left));
            }
            let member = self.item(left, group.into(), text)?;
            members.count += 1;
            members.bytes.extend_from_slice(&member)?;
        }
    }

    // A group: its word, and its members in brackets.
    #[cycle(formulas)]
    fn group(&self, group: Group, left: u8, text: &mut Text) -> Result<Vec<u8>, MakeError>
        ensures { Reads (group_text (fact_names self.now) (group_of group) 0 (item (fact_names self.now) left (mark (group_of group))) text.old.bytes.now) result text.new.bytes.now IsFormula }
    {
        next_word(text);
        let opening = next_word(text);
        if opening.bytes != b"(".as_slice() {
            return Err(Complaint::NoBracket.at(opening.left));
        }
        let members = self.members(group, left, text)?;
        let mut bytes = Vec::new(self.alloc);
        bytes.push(group.into())?;
        bytes.push(members.count)?;
        bytes.extend_from_slice(&members.bytes)?;
        Ok(bytes)
    }

    // A formula in a group with the mark `parent` (0: in none), where `left` more groups may stand in one another.
    #[cycle(formulas)]
    fn item(&self, left: u8, parent: u8, text: &mut Text) -> Result<Vec<u8>, MakeError>
        ensures { Reads (item (fact_names self.now) left parent text.old.bytes.now) result text.new.bytes.now IsFormula }
    {
        let word = text.word();
        let Some(group) = group_word(word.bytes) else {
            return self.leaf(text);
        };
        if left == 0 {
            return Err(Complaint::TooDeep.at(word.left));
        }
        let mark: u8 = group.into();
        if mark == parent {
            return Err(Complaint::SameKind.at(word.left));
        }
        self.group(group, left - 1, text)
    }

    // A formula after its length field.
    pub fn formula(&self, text: &mut Text) -> Result<Vec<u8>, MakeError>
        ensures { Reads (formula (fact_names self.now) text.old.bytes.now) result text.new.bytes.now IsField }
    {
        let place = text.word().left;
        let formula = self.item(Problem::MAX_DEPTH, 0, text)?;
        if formula.len() > Problem::MAX_FORMULA_BYTES {
            return Err(Complaint::FormulaTooLong.at(place));
        }
        let mut length = [0; Problem::LENGTH_BYTES];
        put_number(&mut length, formula.len() as u64);
        let mut bytes = Vec::from_slice(self.alloc, &length)?;
        bytes.extend_from_slice(&formula)?;
        Ok(bytes)
    }

    // The formula after a word, in the same way, or the "all" of nothing where the word does not stand.
    pub fn formula_after(&self, key: &[u8], text: &mut Text) -> Result<Vec<u8>, MakeError>
        ensures { Reads (formula_after (fact_names self.now) key.now text.old.bytes.now) result text.new.bytes.now IsField }
    {
        let word = text.word();
        if word.bytes == key {
            *text = word.after;
            return self.formula(text);
        }
        Ok(Vec::from_slice(self.alloc, &[0, 2, 0x80, 0])?)
    }
}
