// The names that a text gives.
ghost use Rattle.std.specs.Prelude.{◌≡◌, true, false, ◌++◌, ◌∷◌, [], OnOk, IfOk, IsErrOf};
ghost use Rattle.names.specs.Names.{is_short, is_one_word, is_name};
ghost use Rattle.names.specs.Lists.{texts, words_after, names_in, are_names, all_names, is_new_name, fit};
ghost use Rattle.names.specs.declared.lists.NamesError.TheVariants.{BadName, OutOfMemory};

use crate::names::Names;
use std::alloc::{AllocFailed, Global};
use std::error::Error;
use std::{fmt, str};
use words::{Text, ends_word};

// The words that a problem's text is built of: none of them is a name.
const KEYWORDS: [&[u8]; 12] = [
    b"version", b"fact", b"start", b"goal", b"action", b"needs", b"sets", b"clears", b"if",
    b"plan", b"all", b"any",
];

// How many bytes a name has at most: so what is printed with names keeps to a limit too.
pub const MAX_NAME_BYTES: usize = 255;

// Whether no byte of a word ends it.
fn is_one_word(word: &[u8]) -> bool
    ensures { result ≡ is_one_word word.now }
{
    word.iter().all(|byte| !ends_word(*byte))
}

// Whether a word has no more bytes than a name has.
fn is_short(word: &[u8]) -> bool
    ensures { result ≡ is_short word.now }
{
    word.len() <= MAX_NAME_BYTES
}

// Whether a word may be the name of a fact or of an action: it is not too long, and a denial's mark does not begin it.
pub fn is_name(word: &[u8]) -> bool
    ensures { result ≡ is_name word.now }
{
    match word {
        [] | [b'!', ..] => false,
        _ => is_short(word) && is_one_word(word) && !KEYWORDS.contains(&word),
    }
}

// Why a text gives no names.
#[derive(Clone, Copy, Debug, PartialEq, Eq)]
pub enum NamesError {
    // One is no name, or is given twice.
    BadName,
    OutOfMemory,
}

impl fmt::Display for NamesError {
    fn fmt<W: fmt::Write>(&self, f: &mut fmt::Formatter<W>) -> fmt::Result {
        match self {
            NamesError::BadName => write!(f, "bad name"),
            NamesError::OutOfMemory => write!(f, "out of memory"),
        }
    }
}

impl Error for NamesError {}

impl<T: Drop> From<AllocFailed<T>> for NamesError {
    ghost from_gives = { λ _ e. e ≡ OutOfMemory };

    fn from(_failed: AllocFailed<T>) -> NamesError {
        NamesError::OutOfMemory
    }
}

// Adds a word to names: no two of them are the same.
fn push_name<'a>(names: &mut Vec<&'a str>, word: &'a [u8]) -> Result<(), NamesError>
    ensures new { OnOk result (is_new_name (texts names.old.items) word.now ≡ true) }
    ensures pushed { OnOk result (texts names.new.items ≡ texts names.old.items ++ word.now ∷ []) }
    ensures bad { IsErrOf result BadName → is_new_name (texts names.old.items) word.now ≡ false }
{
    if !is_name(word) {
        return Err(NamesError::BadName);
    }
    let Ok(name) = str::from_utf8(word) else {
        return Err(NamesError::BadName);
    };
    if names.contains(&name) {
        return Err(NamesError::BadName);
    }
    names.push(name)?;
    Ok(())
}

// The names that stand after each `key` of a text.
fn names_after<'a>(alloc: Global, key: &[u8], text: &'a [u8]) -> Result<Vec<&'a str>, NamesError>
    ensures names { OnOk result (are_names (words_after key.now text.now) ≡ true) }
    ensures all { IfOk result (λ names. texts names.items ≡ words_after key.now text.now) }
    ensures bad { IsErrOf result BadName → are_names (words_after key.now text.now) ≡ false }
{
    let mut names = Vec::new(alloc);
    let mut left = Text { bytes: text };
    loop {
        let word = left.word();
        if word.bytes.is_empty() {
            return Ok(names);
        }
        left = word.after;
        if word.bytes == key {
            let name = left.word();
            push_name(&mut names, name.bytes)?;
            left = name.after;
        }
    }
}

// Names that a text gives: no two facts have the same, and no two actions.
#[derive(Drop)]
pub struct NameList<'a> {
    facts: Vec<&'a str>,
    actions: Vec<&'a str>,
    ghost named: { (are_names (texts facts.items) ≡ true) × (are_names (texts actions.items) ≡ true) },
}

impl<'a> NameList<'a> {
    ghost use Rattle.names.specs.Names.{NamesOk};
    ghost use Rattle.names.specs.Views.{names};
    ghost use Rattle.names.specs.Listed.{listed};

    // The names that a text gives: each word after `fact` is that of a fact, and each word after `action` that of an action.
    pub fn read(alloc: Global, text: &'a [u8]) -> Result<NameList<'a>, NamesError>
        ensures names { OnOk result (all_names (names_in text.entry.now) ≡ true) }
        ensures all { IfOk result (λ l. listed l ≡ names_in text.entry.now) }
        ensures bad { IsErrOf result BadName → all_names (names_in text.entry.now) ≡ false }
    {
        Ok(NameList {
            facts: names_after(alloc, b"fact", text)?,
            actions: names_after(alloc, b"action", text)?,
        })
    }

    // Whether there are so many names of facts, and of actions: each then has a name of its own.
    pub fn fits(&self, facts: u8, actions: u8) -> bool
        ensures fit { result ≡ fit (listed self.now) facts actions }
        ensures named { result ≡ true → NamesOk (listed self.now) facts actions }
    {
        self.facts.len() == facts as usize && self.actions.len() == actions as usize
    }

    pub fn names(&self) -> Names<'_>
        ensures { names result ≡ listed self.now }
    {
        Names {
            facts: &self.facts,
            actions: &self.actions,
        }
    }
}
