// Lines of output in fixed memory, for whoever has no memory to ask for: words and numbers with a space between two of them. Where there is memory,
// std's formats write a line.
ghost use Rattle.std.specs.Prelude.{◌≡◌};
ghost use Rattle.console.specs.Lines.{empty_line, with_byte, with_bytes, spaced, with_word, WithNumber};

use crate::{Line, numbers, output};
use std::fmt;

impl Line {
    pub fn new() -> Line
        ensures { result ≡ empty_line }
    {
        Line {
            bytes: [0; 160],
            length: 0,
        }
    }

    pub fn word(self, s: &[u8]) -> Line
        ensures { result ≡ with_word self s.now }
    {
        put_all(space(self), s)
    }

    pub fn decimal(self, n: u64) -> Line
        ensures { WithNumber 10 1 n self result }
    {
        let mut digits = [0u8; 20];
        let k = numbers::decimal(n, &mut digits);
        self.word(&digits[..k])
    }

    // At least four digits.
    pub fn hex(self, n: u64) -> Line
        ensures { WithNumber 16 4 n self result }
    {
        let mut digits = [0u8; 16];
        let k = numbers::hex(n, 4, &mut digits);
        self.word(&digits[..k])
    }

    pub fn byte(self, b: u8) -> Line
        ensures { result ≡ with_byte self b }
    {
        let at = self.length;
        if 160 <= at {
            return self;
        }
        let mut next = self;
        next.bytes[at] = b;
        next.length = at + 1;
        next
    }

    // Writes the line and a newline.
    pub fn print(self, rt: &HostRuntime) {
        let line = self.byte(b'\n');
        output::told(
            rt,
            rt.write_all(line.bytes.get(..line.length).unwrap_or(b"")),
        );
    }
}

// A line is the text that a format writes, as far as it fits.
impl fmt::Write for Line {
    ghost write_str_gives = { λ l s r. r ≡ with_bytes l s };

    fn write_str(&mut self, s: &str) -> fmt::Result {
        *self = put_all(*self, s.as_bytes());
        Ok(())
    }
}

// A space, unless the line is empty.
fn space(l: Line) -> Line
    ensures { result ≡ spaced l }
{
    if l.length == 0 { l } else { l.byte(b' ') }
}

pub fn put_all(l: Line, s: &[u8]) -> Line
    ensures { result ≡ with_bytes l s.now }
{
    let mut next = l;
    for i in 0..s.len() {
        next = next.byte(s[i]);
    }
    next
}
