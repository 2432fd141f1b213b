// A number as text, and its digits in a lent array, for whoever has no memory to ask for: std's InlineText may cut what it holds, so these stay.
ghost use Rattle.std.specs.Prelude.{◌≡◌, ◌<◌, ◌≤◌, min, max, length, take, drop, Some, IfOk, string_bytes};
ghost use Rattle.console.specs.Digits.{last_digits, hex_digit_ascii, code_text, IsDigitCount, IsNumberText};

use std::alloc::{AllocError, Global};
use std::fmt;

// A code as it is printed: hexadecimal digits in lower case, at least four.
#[derive(Clone, Copy)]
pub struct Code(pub u32);

impl fmt::Display for Code {
    ghost output = { λ code. Some (code_text code.0) };

    fn fmt<W: fmt::Write>(&self, f: &mut fmt::Formatter<W>) -> fmt::Result {
        let code = self.0;
        write!(f, "{code:04x}")
    }
}

impl Code {
    // The code's text.
    pub fn text(self, alloc: Global) -> Result<String, AllocError>
        ensures { IfOk result (λ text. IsNumberText 16 4 self.0 (string_bytes text)) }
    {
        format!(in alloc; "{self}")
    }
}

// The number's text in decimal.
pub fn text(alloc: Global, n: u64) -> Result<String, AllocError>
    ensures { IfOk result (λ text. IsNumberText 10 1 n (string_bytes text)) }
{
    format!(in alloc; "{n}")
}

// Puts n's decimal digits at the start of out, and returns how many there are.
pub fn decimal(n: u64, out: &mut [u8; 20]) -> usize
    ensures in_bounds { result ≤ length out.new }
    ensures len { IsDigitCount 10 1 n result }
    ensures digits { take result out.new ≡ last_digits 10 result n }
    ensures rest { drop result out.new ≡ drop result out.old }
{
    let k = digit_count(n, 10, 1);
    write_digits(n, 10, k, out);
    k
}

// Puts n's hexadecimal digits, in lower case, at the start of out, with zeros in front up to width digits, and returns how many there are. A
// width of 0 counts as 1, and one above 16 as 16.
pub fn hex(n: u64, width: usize, out: &mut [u8; 16]) -> usize
    ensures in_bounds { result ≤ length out.new }
    ensures len { IsDigitCount 16 (min (max width 1) 16) n result }
    ensures digits { take result out.new ≡ last_digits 16 result n }
    ensures rest { drop result out.new ≡ drop result out.old }
{
    let k = digit_count(n, 16, clamp_width(width));
    write_digits(n, 16, k, out);
    k
}

// How many digits n takes in that base, or the width where that is more.
fn digit_count(n: u64, base: u64, width: usize) -> usize
    requires base { 1 < base }
    requires width_nonzero { 0 < width }
    ensures { IsDigitCount base width n result }
{
    let mut k = 1;
    let mut rest = n / base;
    while rest > 0 {
        rest /= base;
        k += 1;
    }
    if k < width { width } else { k }
}

fn clamp_width(width: usize) -> usize
    ensures { result ≡ min (max width 1) 16 }
{
    width.clamp(1, 16)
}

// Puts the last k digits of n in that base at the start of out.
fn write_digits(n: u64, base: u64, k: usize, out: &mut [u8])
    requires base_nonzero { 0 < base }
    requires base_small { base ≤ 16 }
    requires in_bounds { k ≤ length out.old }
    ensures digits { take k out.new ≡ last_digits base k n }
    ensures rest { drop k out.new ≡ drop k out.old }
{
    let mut i = k;
    let mut rest = n;
    while i > 0 {
        i -= 1;
        out[i] = digit_to_ascii(rest % base);
        rest /= base;
    }
}

fn digit_to_ascii(d: u64) -> u8
    requires { d < 16 }
    ensures { result ≡ hex_digit_ascii d }
{
    if d < 10 {
        b'0' + d as u8
    } else {
        b'a' - 10 + d as u8
    }
}

#[cfg(test)]
mod tests {
    use super::*;

    #[test]
    fn texts_are_written(rt: HostRuntime) -> Result<(), AllocError> {
        for (code, text) in [
            (0, "0000"),
            (0x1001, "1001"),
            (0xb0, "00b0"),
            (0xabcde, "abcde"),
        ] {
            assert_eq!(rt; Code(code).text(rt.alloc())?.as_str(), text);
        }
        assert_eq!(rt; text(rt.alloc(), 0)?.as_str(), "0");
        assert_eq!(rt;
            text(rt.alloc(), 18446744073709551615)?.as_str(),
            "18446744073709551615"
        );
        Ok(())
    }
}
