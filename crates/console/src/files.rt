// A file, named by an argument.
ghost use Rattle.std.specs.Prelude.{◌≡◌, ◌+◌, ◌≤◌, IfOk, IfSome, length, vec_len};
ghost use Rattle.std.specs.Io.{StartsWith};

use crate::arguments::Arguments;
use crate::errors::{NO_TEXT, Stop};
use std::fs::File;
use std::io::{Read, Stdin};
use std::{fs, io};

// The longest file that the programs take, in bytes.
pub const FILE_LIMIT: usize = 262144;

// What is told where standard input would be two files.
pub const ONE_INPUT: &str = "-: standard input can be one file only\n";

// The file that argument i names, or nothing where it is longer than the longest. No more of it is read.
pub fn read(rt: &HostRuntime, arguments: &Arguments, i: usize) -> Result<Option<Vec<u8>>, Stop>
    ensures { IfOk result (λ r. IfSome r (λ file. vec_len file ≤ 262144)) }
{
    let mut file = Vec::new(rt.alloc());
    append(rt, arguments, i, FILE_LIMIT + 1, &mut file)?;
    if FILE_LIMIT < file.len() {
        return Ok(None);
    }
    Ok(Some(file))
}

// Puts the file that argument i names behind the others, at most so many bytes of it, and returns how many. The others stay, on an error too. It is
// read by pieces, so that a limit that is far away costs no more memory than the file needs.
pub fn append(
    rt: &HostRuntime,
    arguments: &Arguments,
    i: usize,
    most: usize,
    files: &mut Vec<u8>,
) -> Result<usize, Stop>
    ensures added { IfOk result (λ n. vec_len files.new ≡ vec_len files.old + n) }
    ensures bounded { IfOk result (λ n. n ≤ most) }
    ensures kept { StartsWith files.new.items files.old.items }
{
    let mut source = Source::open(rt, arguments, i)?;
    let mut piece = vec![in rt.alloc(); 0u8; most.min(FILE_LIMIT + 1)]?;
    let mut read = 0;
    while read < most {
        let room = piece.len().min(most - read);
        let n = fill(rt, arguments, i, &mut source, &mut piece[..room])?;
        files.extend_from_slice(&piece[..n])?;
        read += n;
        if n < room {
            break;
        }
    }
    Ok(read)
}

// Puts the file that argument i names at the start of the place, as much of it as the place takes, and returns how much that is. Each read is lent all
// that is left of the place, so that what comes in packets is not cut.
pub fn load(
    rt: &HostRuntime,
    arguments: &Arguments,
    i: usize,
    place: &mut [u8],
) -> Result<usize, Stop>
    ensures { IfOk result (λ n. n ≤ length place.new) }
{
    let mut source = Source::open(rt, arguments, i)?;
    fill(rt, arguments, i, &mut source, place)
}

// The same of a file that is open.
fn fill(
    rt: &HostRuntime,
    arguments: &Arguments,
    i: usize,
    source: &mut Source,
    place: &mut [u8],
) -> Result<usize, Stop>
    ensures { IfOk result (λ n. n ≤ length place.new) }
{
    match source.fill(place) {
        Ok(n) => Ok(n),
        Err(error) => Err(failed(rt, arguments, i, error)),
    }
}

// That the file that argument i names cannot be read.
pub fn failed(rt: &HostRuntime, arguments: &Arguments, i: usize, error: io::Error) -> Stop {
    // what the system tells has a number, and is told by name
    if error.raw_os_error().is_none() && error.kind() == io::ErrorKind::OutOfMemory {
        return Stop::OutOfMemory;
    }
    Stop::file(rt.alloc(), arguments.get(i).unwrap_or(b""), error)
}

// What is read: standard input, or a file that is open.
#[derive(Drop)]
pub enum Source {
    Input(Stdin),
    Named(File),
}

impl Source {
    // Opens the file that argument i names, where `-` is standard input. It has one end, so it cannot be two files.
    pub fn open(rt: &HostRuntime, arguments: &Arguments, i: usize) -> Result<Source, Stop> {
        if arguments.is(i, b"-") {
            if arguments.has_other(i, b"-") {
                return Err(Stop::Call(ONE_INPUT));
            }
            return Ok(Source::Input(rt.stdin()));
        }
        match open_file(rt, arguments, i) {
            Ok(file) => Ok(Source::Named(file)),
            Err(error) => Err(Stop::file(rt.alloc(), arguments.start(i), error)),
        }
    }
}

impl Source {
    // Reads until there is no more, or the place is full.
    fn fill(&mut self, place: &mut [u8]) -> io::Result<usize>
        ensures { IfOk result (λ n. n ≤ length place.new) }
    {
        let mut n = 0;
        while n < place.len() {
            let more = self.read(&mut place[n..])?;
            if more == 0 {
                break;
            }
            n += more;
        }
        Ok(n)
    }
}

fn open_file(rt: &HostRuntime, arguments: &Arguments, i: usize) -> io::Result<File> {
    fs::open(rt, arguments.name(i)?)
}

impl Read for Source {
    fn read(&mut self, place: &mut [u8]) -> io::Result<usize> {
        match self {
            Source::Input(input) => input.read(place),
            Source::Named(file) => file.read(place),
        }
    }
}

// The name as text, which the names of files are here.
pub fn name_text(name: &[u8]) -> io::Result<&str>
    ensures { IfOk result (λ text. text.now ≡ name.now) }
{
    match std::str::from_utf8(name) {
        Ok(text) => Ok(text),
        Err(_) => Err(io::Error::from_raw_os_error(NO_TEXT)),
    }
}

#[cfg(test)]
mod tests {
    use super::*;
    use crate::arguments::copy;
    use crate::arguments::tests::arguments;
    use std::alloc::AllocError;

    // A limit that no memory could hold costs none, and a file of several pieces comes whole.
    #[test]
    fn files_are_appended(rt: HostRuntime) -> Result<(), AllocError> {
        let mut bytes = Vec::new(rt.alloc());
        for i in 0..600_000usize {
            bytes.push((i % 251) as u8)?;
        }
        let name = "console-files-appended.tmp";
        assert!(rt; fs::write(&rt, name, &bytes).is_ok());
        let given = arguments(&rt, &[b"program", name.as_bytes()])?;
        let mut files = copy(rt.alloc(), &[7, 8, 9])?;
        let whole = append(&rt, &given, 1, usize::MAX, &mut files).ok();
        let part = append(&rt, &given, 1, 300_000, &mut files).ok();
        assert!(rt; fs::remove_file(&rt, name).is_ok());
        assert_eq!(rt; whole, Some(600_000));
        assert_eq!(rt; part, Some(300_000));
        assert_eq!(rt; files.len(), 900_003);
        assert!(rt; files.get(..3) == Some([7, 8, 9].as_slice()));
        assert!(rt; files.get(3..600_003) == Some(bytes.as_slice()));
        assert!(rt; files.get(600_003..) == bytes.get(..300_000));
        Ok(())
    }

    // Which others there are is seen by the arguments that are given.
    #[test]
    fn standard_input_is_one_file(rt: HostRuntime) -> Result<(), AllocError> {
        let once = arguments(&rt, &[b"-", b"-"])?;
        assert!(rt; Source::open(&rt, &once, 1).is_ok());
        let twice = arguments(&rt, &[b"program", b"-", b"a", b"-"])?;
        assert!(rt; matches!(Source::open(&rt, &twice, 1), Err(Stop::Call(ONE_INPUT))));
        assert!(rt; matches!(Source::open(&rt, &twice, 3), Err(Stop::Call(ONE_INPUT))));
        Ok(())
    }
}
