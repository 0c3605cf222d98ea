//! The words of a command line.
use pq_base::{List, NoMem, PText};
use std::alloc::Global;
use std::env;
use std::io::{self, ErrorKind};
use std::rt::Env;

/// Why the words of a command line could not be read.
#[derive(Clone, Copy, PartialEq, Eq)]
pub enum WordsErr {
    /// A word isn't UTF-8.
    NotUtf8,
    /// There was no memory.
    NoMem,
}

impl From<NoMem> for WordsErr {
    fn from(_error: NoMem) -> WordsErr {
        WordsErr::NoMem
    }
}

fn words_err(error: &io::Error) -> WordsErr {
    match error.kind() {
        ErrorKind::OutOfMemory => WordsErr::NoMem,
        _ => WordsErr::NotUtf8,
    }
}

fn push_word(alloc: Global, words: &mut List<PText>, word: &str) -> Result<(), WordsErr> {
    match PText::from_bytes(alloc, word.as_bytes())? {
        Some(word) => Ok(words.push(alloc, word)?),
        None => Err(WordsErr::NotUtf8),
    }
}

/// The words after the program's name.
pub fn read_words<R: Env + AllocGlobal>(rt: &R) -> Result<List<PText>, WordsErr> {
    let args = match env::args(rt) {
        Ok(args) => args,
        Err(error) => return Err(words_err(&error)),
    };
    let mut words = List::new(rt.alloc());
    for word in args.skip(1) {
        push_word(rt.alloc(), &mut words, word.as_str())?;
    }
    Ok(words)
}
