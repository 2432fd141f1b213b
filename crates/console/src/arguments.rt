// The program's arguments, as the bytes that they are.
ghost use Rattle.std.specs.Prelude.{◌≡◌, ◌↔◌, ◌≤◌, length, vec_len, option_map, Some, IsTrue, IfOk};
ghost use Rattle.console.specs.Words.{word_at, OtherIs};

use crate::errors::{INVALID, NAME_TOO_LONG};
use crate::files::name_text;
use std::alloc::{AllocError, Global};
use std::env::{Env, FillError};
use std::io;

// The longest that a file's name may be.
pub const NAME_LIMIT: usize = 4096;

// An argument. Of one that is longer than any file's name there are the first bytes alone.
#[derive(Drop)]
pub enum Word {
    Whole(Vec<u8>),
    Start(Vec<u8>),
}

// What a program was started with, its own name first.
#[derive(Drop)]
pub struct Arguments {
    pub all: Vec<Word>,
}

impl Arguments {
    pub fn read(rt: &HostRuntime) -> Result<Arguments, AllocError> {
        Arguments::part(rt, 0, argument_count(rt))
    }

    // So many of them, from one on. The first of these is argument 0 of the part.
    pub fn part(rt: &HostRuntime, from: usize, count: usize) -> Result<Arguments, AllocError>
        ensures { IfOk result (λ a. vec_len a.all ≡ count) }
    {
        let mut all = Vec::new(rt.alloc());
        for i in 0..count {
            all.push(read_word(rt, from.saturating_add(i))?)?;
        }
        Ok(Arguments { all })
    }

    pub fn len(&self) -> usize
        ensures { result ≡ vec_len self.now.all }
    {
        self.all.len()
    }

    pub fn is_empty(&self) -> bool
        ensures { IsTrue result ↔ (vec_len self.now.all ≡ 0) }
    {
        self.all.is_empty()
    }

    // Argument i, where there is one and it is no longer than any file's name.
    pub fn get(&self, i: usize) -> Option<&[u8]>
        ensures { option_map (λ w. w.now) result ≡ word_at self.now.all.items i }
    {
        match self.all.get(i)? {
            Word::Whole(word) => Some(word.as_slice()),
            Word::Start(_) => None,
        }
    }

    // Whether argument i is that word.
    pub fn is(&self, i: usize, word: &[u8]) -> bool
        ensures { IsTrue result ↔ (word_at self.now.all.items i ≡ Some word.now) }
    {
        self.get(i) == Some(word)
    }

    // Whether an argument besides i is that word too. The program's name does not count.
    pub fn has_other(&self, i: usize, word: &[u8]) -> bool
        ensures { IsTrue result ↔ OtherIs self.now.all.items i word.now }
    {
        (1..self.len()).any(|k| k != i && self.is(k, word))
    }

    // Argument i as the name of a file, which is text.
    pub fn name(&self, i: usize) -> io::Result<&str> {
        match self.all.get(i) {
            Some(Word::Whole(word)) => name_text(word.as_slice()),
            Some(Word::Start(_)) => Err(io::Error::from_raw_os_error(NAME_TOO_LONG)),
            None => Err(io::Error::from_raw_os_error(INVALID)),
        }
    }

    // Argument i as it is told: no more of it than a file's name can have.
    pub fn start(&self, i: usize) -> &[u8] {
        match self.all.get(i) {
            Some(Word::Whole(word) | Word::Start(word)) => word.as_slice(),
            None => b"",
        }
    }
}

// Argument i. One that is not there is an empty word.
fn read_word(rt: &HostRuntime, i: usize) -> Result<Word, AllocError> {
    let mut place = [0u8; NAME_LIMIT];
    match rt.arg(i, &mut place) {
        Ok(n) => Ok(Word::Whole(copy(rt.alloc(), &place[..n])?)),
        Err(FillError::TooLong) => Ok(Word::Start(copy(rt.alloc(), &place)?)),
        Err(FillError::NotPresent) => Ok(Word::Whole(Vec::new(rt.alloc()))),
    }
}

// The bytes in a place of their own.
pub fn copy(alloc: Global, bytes: &[u8]) -> Result<Vec<u8>, AllocError>
    ensures { IfOk result (λ copy. copy.items ≡ bytes.now) }
{
    let mut copy = Vec::new(alloc);
    copy.extend_from_slice(bytes)?;
    Ok(copy)
}

// For whoever has no memory to ask for: 4,096 zeros, which hold any file's name.
pub fn buffer() -> [u8; NAME_LIMIT]
    ensures { length result ≡ 4096 }
{
    [0; NAME_LIMIT]
}

// Puts argument i at the start of the buffer and returns its length, or 0 where it is missing or longer than the buffer. One that is too long
// leaves its first bytes there.
pub fn argument(rt: &HostRuntime, i: usize, text: &mut [u8]) -> usize
    ensures { result ≤ length text.new }
{
    rt.arg(i, text).unwrap_or(0)
}

// How many arguments the program was started with, its own name among them.
pub fn argument_count(rt: &HostRuntime) -> usize {
    for i in 0..usize::MAX {
        if let Err(FillError::NotPresent) = rt.arg(i, &mut []) {
            return i;
        }
    }
    usize::MAX
}

#[cfg(test)]
pub mod tests {
    use super::*;

    // These words, as a program's arguments.
    pub fn arguments(rt: &HostRuntime, words: &[&[u8]]) -> Result<Arguments, AllocError> {
        let mut all = Vec::new(rt.alloc());
        for word in words {
            all.push(Word::Whole(copy(rt.alloc(), word)?))?;
        }
        Ok(Arguments { all })
    }

    #[test]
    fn another_is_found(rt: HostRuntime) -> Result<(), AllocError> {
        let given = arguments(&rt, &[b"-", b"a", b"-", b"b"])?;
        assert!(rt; given.has_other(1, b"-"));
        assert!(rt; given.has_other(0, b"-"));
        assert!(rt; given.has_other(2, b"a"));
        // neither itself, nor the program's name, nor what only begins so
        assert!(rt; !given.has_other(2, b"-"));
        assert!(rt; !given.has_other(1, b"a"));
        assert!(rt; !given.has_other(1, b""));
        assert!(rt; given.get(1) == Some(b"a".as_slice()));
        assert!(rt; given.get(4).is_none() && !given.is(4, b""));
        Ok(())
    }
}
