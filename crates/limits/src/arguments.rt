// Calls as arguments give them. An argument that is wrong ends the program.
ghost use Rattle.std.specs.Prelude.{◌≡◌, ◌≤◌, ◌<◌, IfOk, vec_len};
ghost use Rattle.limits.specs.Digits.{number_of, with_digit};

use crate::calls::Call;
use console::arguments::{Arguments, argument_count};
use console::errors::Stop;
use console::files::{FILE_LIMIT, ONE_INPUT, append};
use console::words::is_word;

// The largest sizes.
const SURFACE_BYTES: usize = 1048576;

const SCRATCH_NUMBERS: usize = 16384;

// The call that starts at argument i, with its files, which are put in old and new.
pub fn read_call<'a>(
    rt: &HostRuntime,
    arguments: &Arguments,
    i: usize,
    old: &'a mut Vec<u8>,
    new: &'a mut Vec<u8>,
) -> Result<Call<'a>, Stop>
    requires { i < vec_len arguments.now.all }
    ensures { IfOk result (λ call. i < call.end) }
{
    let rest = arguments.len() - i;
    if arguments.is(i, b"draw") {
        if rest < 4 {
            return Err(wrong(rt, arguments, i, b" takes FILE SURFACE ROOM\n"));
        }
        let new = file(rt, arguments, i + 1, new)?;
        sized(rt, arguments, i + 4, None, new)
    } else if arguments.is(i, b"redraw") {
        if rest < 5 {
            return Err(wrong(rt, arguments, i, b" takes OLD NEW SURFACE ROOM\n"));
        }
        let old = file(rt, arguments, i + 1, old)?;
        let new = file(rt, arguments, i + 2, new)?;
        sized(rt, arguments, i + 5, Some(old), new)
    } else {
        Err(wrong(rt, arguments, i, b" is neither draw nor redraw\n"))
    }
}

// The file that argument i names, in an empty place. These are the words of one call, and standard input is one file among all.
fn file<'a>(
    rt: &HostRuntime,
    arguments: &Arguments,
    i: usize,
    place: &'a mut Vec<u8>,
) -> Result<&'a [u8], Stop> {
    if arguments.is(i, b"-") && is_input_twice(rt) {
        return Err(Stop::Call(ONE_INPUT));
    }
    append(rt, arguments, i, FILE_LIMIT + 1, place)?;
    if FILE_LIMIT < place.len() {
        return Err(wrong(rt, arguments, i, b" is too long\n"));
    }
    Ok(place.as_slice())
}

// Whether more than one of the program's arguments is `-`. Its name does not count.
fn is_input_twice(rt: &HostRuntime) -> bool {
    let mut is_given = false;
    for i in 1..argument_count(rt) {
        if is_word(rt, i, b"-") {
            if is_given {
                return true;
            }
            is_given = true;
        }
    }
    false
}

// The call with the sizes that its last two arguments are.
fn sized<'a>(
    rt: &HostRuntime,
    arguments: &Arguments,
    end: usize,
    old: Option<&'a [u8]>,
    new: &'a [u8],
) -> Result<Call<'a>, Stop>
    requires { 2 ≤ end }
    ensures { IfOk result (λ call. call.end ≡ end) }
{
    let surface = size(
        rt,
        arguments,
        end - 2,
        SURFACE_BYTES,
        b" is not a number of bytes up to 1048576\n",
    )?;
    let scratch = size(
        rt,
        arguments,
        end - 1,
        SCRATCH_NUMBERS,
        b" is not a count of numbers up to 16384\n",
    )?;
    Ok(Call {
        end,
        old,
        new,
        surface,
        scratch,
    })
}

// The number that argument i is, which is at most so much.
fn size(
    rt: &HostRuntime,
    arguments: &Arguments,
    i: usize,
    most: usize,
    what: &[u8],
) -> Result<usize, Stop>
    ensures { IfOk result (λ n. n ≤ most) }
{
    match number(arguments.get(i).unwrap_or(b"")) {
        Some(n) if n <= most => Ok(n),
        _ => Err(wrong(rt, arguments, i, what)),
    }
}

// The number that these bytes are, of nine digits at most behind its zeros.
pub fn number(text: &[u8]) -> Option<usize>
    ensures { result ≡ number_of text.now }
{
    if text.is_empty() {
        return None;
    }
    let mut n = 0;
    for &b in text {
        n = more(n, b)?;
    }
    Some(n)
}

// A number with one more digit.
fn more(n: usize, b: u8) -> Option<usize>
    ensures { result ≡ with_digit n b }
{
    match b {
        b'0'..=b'9' if n <= 99999999 => Some(n * 10 + (b - b'0') as usize),
        _ => None,
    }
}

// What is wrong with argument i.
fn wrong(rt: &HostRuntime, arguments: &Arguments, i: usize, what: &[u8]) -> Stop {
    let word = arguments.get(i).unwrap_or(b"");
    Stop::wrong(rt.alloc(), &[b"limits: ".as_slice(), word, what])
}
