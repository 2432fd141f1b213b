// Writes the scene file that its first argument names again, to the file that its second argument names, with the empty draw in place of each draw
// that the rules refuse:
//
//     replaced N          how many draws were replaced, then a line `DRAW CODE` for each
//     refused CODE        block 0 or the length is wrong, and no file is written
//
// The file is written under another name first, which must be free, and then renamed, so that one that was there is replaced whole or not at all.
#![tactic(auto)]

use codes::ACCEPTED;
use console::arguments::{Arguments, argument_count, copy};
use console::errors::{NAME_TOO_LONG, Stop, finish, tell_file};
use console::files;
use console::files::name_text;
use console::numbers::Code;
use console::output::print;
use console::usage::Manual;
use rescue::write::salvage;
use std::fs::File;
use std::io::Write;
use std::process::ExitCode;
use std::{fs, io};

// The draws that a list holds at most, two numbers each.
const LIST_DRAWS: usize = 64;

// The longest name that leaves room for the ending of the other name.
const NAME_LIMIT: usize = 4092;

const MANUAL: Manual = Manual {
    usage: "usage: salvage SCENE OUT\n",
    help: "Writes a scene file anew, each draw that is refused replaced by an empty one, to the file OUT, and prints `replaced N`, then\n\
        DRAW CODE of each of them. A scene that cannot be salvaged prints `refused CODE`, a file that is too long `limit`; then no\n\
        file is written. OUT is replaced whole or not at all, by way of the file OUT.new, so it cannot be -.\n",
};

fn main(rt: HostRuntime) -> ExitCode {
    finish(&rt, run(&rt))
}

fn run(rt: &HostRuntime) -> Result<(), Stop> {
    MANUAL.judge_call(rt, argument_count(rt) == 3)?;
    let arguments = Arguments::read(rt)?;
    if arguments.is(2, b"-") {
        return Err(Stop::Call("OUT: a file that is replaced cannot be -\n"));
    }
    let scene = files::read(rt, &arguments, 1)?.ok_or(Stop::TooLong)?;
    let mut salvaged = vec![in rt.alloc(); 0u8; scene.len()]?;
    let mut list = [0u32; LIST_DRAWS * 2];
    let answer = salvage(&scene, &mut salvaged, &mut list);
    if answer.code != ACCEPTED {
        print(rt, format_args!("refused {}", Code(answer.code)));
        return Ok(());
    }
    write_out(rt, &arguments, &salvaged)?;
    print_replaced(rt, &list, answer.replaced);
    Ok(())
}

// The file that argument 2 names has those bytes then.
fn write_out(rt: &HostRuntime, arguments: &Arguments, bytes: &[u8]) -> Result<(), Stop> {
    let Some(name) = arguments.get(2) else {
        let error = io::Error::from_raw_os_error(NAME_TOO_LONG);
        return Err(Stop::file(rt.alloc(), arguments.start(2), error));
    };
    if NAME_LIMIT < name.len() {
        return Err(Stop::Call("OUT: File name too long\n"));
    }
    let mut other = copy(rt.alloc(), name)?;
    other.extend_from_slice(b".new")?;
    replace_file(rt, name, &other, bytes)
}

// The bytes under the other name, which must be free; then they take the name. What cannot take it is removed.
fn replace_file(rt: &HostRuntime, name: &[u8], other: &[u8], bytes: &[u8]) -> Result<(), Stop> {
    let file = match open_new(rt, other) {
        Ok(file) => file,
        Err(error) => return Err(Stop::file(rt.alloc(), other, error)),
    };
    match write_and_rename(rt, file, name, other, bytes) {
        Ok(()) => Ok(()),
        Err(error) => {
            // told while the other file is still there
            tell_file(rt, other, error);
            remove(rt, other);
            Err(Stop::Told)
        }
    }
}

fn open_new(rt: &HostRuntime, other: &[u8]) -> io::Result<File> {
    File::options()
        .write(true)
        .create_new(true)
        .open(rt, name_text(other)?)
}

fn remove(rt: &HostRuntime, other: &[u8]) {
    if let Ok(other) = name_text(other) {
        let _ = fs::remove_file(rt, other);
    }
}

// Writes the bytes through to the disk, and closes the file before it is renamed.
fn write_and_rename(
    rt: &HostRuntime,
    mut file: File,
    name: &[u8],
    other: &[u8],
    bytes: &[u8],
) -> io::Result<()> {
    file.write_all(bytes)?;
    file.sync_all()?;
    drop(file);
    fs::rename(rt, name_text(other)?, name_text(name)?)
}

// How many were replaced, then the number and the code of each.
fn print_replaced(rt: &HostRuntime, list: &[u32], replaced: u32) {
    print(rt, format_args!("replaced {replaced}"));
    for pair in list.chunks_exact(2).take(replaced as usize) {
        if let [draw, code] = pair {
            print(rt, format_args!("{draw} {}", Code(*code)));
        }
    }
}
