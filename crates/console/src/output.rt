// Writing to standard output. Why a write fails is told on standard error.
use crate::errors;
use std::fmt::Display;
use std::io;

// A line.
pub fn print<D: Display + Drop>(rt: &HostRuntime, line: D) {
    told(rt, rt.println(line));
}

// Tells why standard output was not written, if it was not.
pub fn told(rt: &HostRuntime, written: io::Result<()>) {
    if let Err(error) = written {
        errors::tell_file(rt, b"standard output", error);
    }
}
