// The text of a picture read back: its first line, and its rows. What is read is printed again and held to the text.
ghost use Rattle.std.specs.Prelude.{◌≡◌, ◌*◌, ◌≤◌, length, IfSome};
ghost use Rattle.compare.specs.Texts.{Printed, SizeLine, digit_value, row_bytes, RowRead};

use crate::Size;
use console::numbers::decimal;
use std::str;
use text::PIXEL_TEXT;

// The size in a first line: two numbers with a space between them.
pub fn line_size(line: &[u8]) -> Option<Size>
    ensures { IfSome result (λ size. SizeLine size line.now) }
{
    let k = line.iter().position(|&b| b == b' ')?;
    let width = number(&line[..k])?;
    let height = number(&line[k + 1..])?;
    Some(Size { width, height })
}

// The number that is printed so; one of ten digits or more is taken for none.
#[tactic(auto, unfolding(crate::specs::Texts::Printed))]
fn number(text: &[u8]) -> Option<u32>
    ensures { IfSome result (λ n. Printed n text.now) }
{
    if 9 < text.len() {
        return None;
    }
    let n = parsed(text)?;
    let mut again = [0u8; 20];
    let k = decimal(u64::from(n), &mut again);
    if &again[..k] == text { Some(n) } else { None }
}

fn parsed(text: &[u8]) -> Option<u32> {
    str::from_utf8(text).ok()?.parse::<u32>().ok()
}

// Whether text is that of a row of n pixels; then they are in out. again is a place for the text of what is in out.
pub fn row_pixels(text: &[u8], n: usize, out: &mut [u8], again: &mut [u8]) -> bool
    requires { (length text.now ≡ n * 9) × (length out.old ≡ n * 4) × (length again.old ≡ n * 9) }
    ensures { RowRead n text.now out.new result }
{
    decode(text, n, out);
    text::row(out, n, again);
    text == again
}

// Every byte from its two digits.
fn decode(text: &[u8], n: usize, out: &mut [u8])
    requires { (length text.now ≡ n * 9) × (length out.old ≡ n * 4) }
    ensures { out.new ≡ row_bytes n text.now }
{
    for j in 0..out.len() {
        let at = j / 4 * PIXEL_TEXT + j % 4 * 2;
        out[j] = value(text[at]) * 16 + value(text[at + 1]);
    }
}

// What a digit stands for; 0 for what is none.
fn value(digit: u8) -> u8
    ensures { (result ≡ digit_value digit) × (result ≤ 15) }
{
    match digit {
        b'0'..=b'9' => digit - b'0',
        b'a'..=b'f' => digit - b'a' + 10,
        _ => 0,
    }
}
