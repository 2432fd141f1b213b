// The coordinates among the arguments.
use console::arguments::Arguments;
use console::errors::Stop;

// A number outside every picture, which stands for all below 0. A larger one need not be exact.
const OUTSIDE: usize = 1000000000;

// The coordinate that argument i is.
pub fn coordinate(rt: &HostRuntime, arguments: &Arguments, i: usize) -> Result<usize, Stop> {
    let text = arguments.get(i).unwrap_or(b"");
    signed(text).ok_or_else(|| {
        Stop::wrong(
            rt.alloc(),
            &[b"explain: ".as_slice(), text, b" is not a number\n"],
        )
    })
}

// A number with or without a minus before it.
fn signed(text: &[u8]) -> Option<usize> {
    match text.strip_prefix(b"-") {
        None => digits(text),
        Some(rest) if digits(rest)? == 0 => Some(0),
        Some(_) => Some(OUTSIDE),
    }
}

// The number that digits are, one at least.
fn digits(text: &[u8]) -> Option<usize> {
    if text.is_empty() {
        return None;
    }
    let mut n = 0;
    for &b in text {
        n = with_digit(n, digit(b)?);
    }
    Some(n)
}

fn digit(b: u8) -> Option<u8> {
    match b {
        b'0'..=b'9' => Some(b - b'0'),
        _ => None,
    }
}

// A number with one more digit; one that is outside every picture stays.
fn with_digit(n: usize, digit: u8) -> usize {
    if OUTSIDE <= n {
        n
    } else {
        n * 10 + digit as usize
    }
}
