// Telling on standard error what went wrong. Where that cannot be written, nobody can be told.

use crate::arguments::copy;
use crate::output;
use crate::usage::Manual;
use std::alloc::{AllocError, AllocFailed, Global};
use std::fmt::InlineText;
use std::io;
use std::process::ExitCode;

// Why a program stops before its work is done. It is told when the program ends.
#[derive(Drop)]
pub enum Stop {
    // The program was asked how it is called.
    Asked(Manual),
    // It was called in another way, of which this is to be told.
    Call(&'static str),
    // A file cannot be opened, read or written: its name as it is told, and why.
    File(Vec<u8>, io::Error),
    // An argument or what a file holds is wrong: what is to be told of it, which need not be text.
    Wrong(Vec<u8>),
    // A file is longer than the longest that is taken.
    TooLong,
    OutOfMemory,
    // What is wrong has been told already.
    Told,
}

impl Stop {
    // That the file of that name cannot be opened, read or written.
    pub fn file(alloc: Global, name: &[u8], error: io::Error) -> Stop {
        let told = if name == b"-".as_slice() {
            b"standard input".as_slice()
        } else {
            name
        };
        match copy(alloc, told) {
            Ok(copy) => Stop::File(copy, error),
            Err(AllocError) => Stop::OutOfMemory,
        }
    }

    // That an argument or what a file holds is wrong, told by these parts one behind the other.
    pub fn wrong(alloc: Global, parts: &[&[u8]]) -> Stop {
        match joined(alloc, parts) {
            Ok(told) => Stop::Wrong(told),
            Err(AllocError) => Stop::OutOfMemory,
        }
    }
}

fn joined(alloc: Global, parts: &[&[u8]]) -> Result<Vec<u8>, AllocError> {
    let mut all = Vec::new(alloc);
    for part in parts {
        all.extend_from_slice(part)?;
    }
    Ok(all)
}

impl From<AllocError> for Stop {
    fn from(_error: AllocError) -> Stop {
        Stop::OutOfMemory
    }
}

impl<T: Drop> From<AllocFailed<T>> for Stop {
    fn from(_error: AllocFailed<T>) -> Stop {
        Stop::OutOfMemory
    }
}

// Tells why a program has stopped, if it has, and ends it.
pub fn finish(rt: &HostRuntime, outcome: Result<(), Stop>) -> ExitCode {
    match outcome {
        Ok(()) | Err(Stop::Told) => {}
        Err(Stop::Asked(manual)) => manual.print(rt),
        Err(Stop::Call(what)) => tell(rt, what.as_bytes()),
        Err(Stop::File(name, error)) => tell_file(rt, &name, error),
        Err(Stop::Wrong(told)) => tell(rt, &told),
        Err(Stop::TooLong) => output::print(rt, "limit"),
        Err(Stop::OutOfMemory) => tell(rt, b"out of memory\n"),
    }
    ExitCode::SUCCESS
}

// A line on standard error: the name, a colon and the error's text, without the system's number for it.
pub fn tell_file(rt: &HostRuntime, name: &[u8], error: io::Error) {
    let text = InlineText::<160>::of(error);
    let reason = text.as_str();
    let end = reason.find(" (os error ").unwrap_or(reason.len());
    tell(rt, name);
    tell(rt, b": ");
    tell(rt, &reason.as_bytes()[..end]);
    tell(rt, b"\n");
}

// The system's number for a name that is too long.
pub const NAME_TOO_LONG: i32 = 36;

// Its number for a name that is no text.
pub const NO_TEXT: i32 = 84;

// Its number for what it cannot make sense of.
pub const INVALID: i32 = 22;

// Writes the bytes to standard error.
pub fn tell(rt: &HostRuntime, s: &[u8]) {
    let _ = rt.stderr().write_all(s);
}
