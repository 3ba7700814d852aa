ghost use Rattle.std.specs.Prelude.{◌≡◌, take, IfOk};
ghost use Rattle.spice_text.specs.Words.{before_assignment, is_assignment};
ghost use Rattle.spice_text.specs.Statements.{meaning_of, statement_of};
ghost use Rattle.spice_text.specs.ReaderViews.{keyword_of, said};

use crate::words::{lowered, words_in};
use or_geom::{Items, Memory, Name};
use std::alloc::Global;

/// What the first word of a line tells.
#[derive(Clone, Copy, PartialEq, Eq)]
pub enum Keyword {
    /// `.global` or `.include`.
    Refused,
    Subckt,
    Ends,
    End,
    /// Another word that begins with `.`.
    Command,
    /// A word that begins with x.
    Instance,
    Other,
}

/// What a logical line says.
#[derive(Drop)]
pub enum Statement {
    /// A command that isn't read.
    Refused,
    /// A subcircuit begins: its name and its ports.
    Begin(Items<Name>),
    /// A subcircuit ends: its name, where it is given, and what isn't looked at.
    End(Items<Name>),
    /// The text ends.
    Stop,
    /// Another command.
    Command,
    /// An instance: its name, its nodes, and the name of its subcircuit.
    Instance(Items<Name>),
    /// It continues a line that isn't there.
    Continuation,
    Other,
}

fn read_keyword(word: &[u8]) -> Keyword
    ensures { result ≡ keyword_of word.now }
{
    if word == b".global".as_slice() || word == b".include".as_slice() {
        return Keyword::Refused;
    }
    if word == b".subckt".as_slice() {
        return Keyword::Subckt;
    }
    if word == b".ends".as_slice() {
        return Keyword::Ends;
    }
    if word == b".end".as_slice() {
        return Keyword::End;
    }
    match word {
        [b'.', ..] => Keyword::Command,
        [b'x', ..] => Keyword::Instance,
        _ => Keyword::Other,
    }
}

fn holds_equals(word: &[u8]) -> bool
    ensures { result ≡ is_assignment word.now }
{
    word.iter().any(|b| *b == b'=')
}

/// How many words stand before the first that holds `=`.
fn plain_count(words: &[Name]) -> usize
    ensures { take result words.now ≡ before_assignment words.now }
{
    for (index, word) in words.iter().enumerate() {
        if holds_equals(word.as_bytes()) {
            return index;
        }
    }
    words.len()
}

/// The words before the first that holds `=`.
fn without_assignments(words: Vec<Name>) -> Items<Name>
    ensures { result ≡ before_assignment words.items }
{
    let mut words = words;
    let count = plain_count(words.as_slice());
    words.truncate(count);
    Items::from_vec(words)
}

/// What a line of these words says.
fn statement_in(words: Vec<Name>) -> Statement
    ensures { said result ≡ meaning_of words.items }
{
    let keyword = match words.first() {
        Some(first) => read_keyword(first.as_bytes()),
        None => Keyword::Other,
    };
    match keyword {
        Keyword::Refused => Statement::Refused,
        Keyword::Subckt => {
            let mut words = words;
            words.remove(0);
            Statement::Begin(without_assignments(words))
        }
        Keyword::Ends => {
            let mut words = words;
            words.remove(0);
            Statement::End(Items::from_vec(words))
        }
        Keyword::End => Statement::Stop,
        Keyword::Command => Statement::Command,
        Keyword::Instance => Statement::Instance(without_assignments(words)),
        Keyword::Other => Statement::Other,
    }
}

/// What a logical line says, read without regard to case.
pub fn read_statement(alloc: Global, text: &[u8]) -> Result<Statement, Memory>
    ensures { IfOk result (λ statement. said statement ≡ statement_of text.now) }
{
    if let [b'+', ..] = text {
        return Ok(Statement::Continuation);
    }
    let lower = lowered(alloc, text)?;
    let words = words_in(alloc, lower.as_slice())?;
    Ok(statement_in(words))
}
