// Two pictures compared: how many pixels differ, where, and by how much.
#![tactic(auto)]

pub mod rows;

ghost use Rattle.std.specs.Prelude.{◌≡◌, ◌&&◌, ◌*◌, ◌≤◌, ◌<◌, length};
ghost use Rattle.codes.specs.Number.{number_of, number_told};
ghost use Rattle.difference.specs.Compare.{allowed_side, refusal_code, refused, report, compare_answer};
ghost use Rattle.difference.specs.Rows.{all_found, Noted, Small};

use codes::{ACCEPTED, Code};
use rect::Rect;

// The largest width and height.
const SIDE_LIMIT: u32 = 1024;

// The answer: a code, 0 if the pictures were compared; 1 if they are equal; the number of differing pixels; the smallest rectangle that holds
// them; the largest difference of any channel; the least y * width + x of a differing pixel.
#[repr(C)]
#[derive(Clone, Copy, PartialEq, Eq)]
pub struct Comparison {
    pub code: u32,
    pub equal: u32,
    pub count: u32,
    pub x: u32,
    pub y: u32,
    pub width: u32,
    pub height: u32,
    pub largest: u32,
    pub least: u32,
}

// What is found of the rows so far: the number of differing pixels, the smallest rectangle that holds them, the largest difference of any
// channel, and the least number of a differing pixel.
#[derive(Clone, Copy, PartialEq, Eq)]
pub struct Found {
    pub count: usize,
    pub area: Rect,
    pub largest: u8,
    pub least: usize,
}

// Compares two surfaces of that size.
#[tactic(auto, unfolding(crate::specs::Compare::compare_answer))]
pub fn compare(width: u32, height: u32, a: &[u8], b: &[u8]) -> Comparison
    ensures { result ≡ compare_answer width height a.now b.now }
{
    match judge(width, height, a.len(), b.len()) {
        Ok(()) => answer(find(a, b, width as usize, height as usize)),
        Err(code) => refusal(code),
    }
}

// Whether pictures have that size.
pub fn is_allowed(width: u32, height: u32) -> bool
    ensures { result ≡ allowed_side width && allowed_side height }
{
    1 <= width && width <= SIDE_LIMIT && 1 <= height && height <= SIDE_LIMIT
}

// Judges surfaces of so many bytes.
#[tactic(auto, unfolding(crate::specs::Compare::refusal_code))]
fn judge(width: u32, height: u32, a: usize, b: usize) -> Result<(), Code>
    ensures { number_told (λ code. code) result ≡ refusal_code width height a b }
{
    if !is_allowed(width, height) {
        return Err(Code::IllegalArgument);
    }
    let n = 4 * ((width as usize) * (height as usize));
    if a != n || b != n {
        return Err(Code::UnsupportedImageFormat);
    }
    Ok(())
}

// Rows are taken from the top one down, as pictures are printed. So the pixel that is noted last has the least number.
fn find(a: &[u8], b: &[u8], width: usize, height: usize) -> Found
    requires width_nonzero { (0 < width) × (width ≤ 1024) × (height ≤ 1024) }
    requires a_len { (length a.now ≡ height * (width * 4)) × (length b.now ≡ height * (width * 4)) }
    ensures value { result ≡ all_found width height a.now b.now }
    ensures noted { Noted width 0 result }
{
    let mut found = Found::nothing();
    for y in (0..height).rev() {
        let at = y * (width * 4);
        let e = at + width * 4;
        found = found.with_row(&a[at..e], &b[at..e], width, y);
    }
    found
}

// What is answered once all rows are noted.
pub fn answer(f: Found) -> Comparison
    requires { Small f }
    ensures { result ≡ report f.count f.area f.largest f.least }
{
    Comparison {
        code: ACCEPTED,
        equal: u32::from(f.count == 0),
        count: f.count as u32,
        x: f.area.x0 as u32,
        y: f.area.y0 as u32,
        width: (f.area.x1 - f.area.x0) as u32,
        height: (f.area.y1 - f.area.y0) as u32,
        largest: u32::from(f.largest),
        least: f.least as u32,
    }
}

fn refusal(code: Code) -> Comparison
    ensures { result ≡ refused (number_of code) }
{
    Comparison {
        code: code.number(),
        equal: 0,
        count: 0,
        x: 0,
        y: 0,
        width: 0,
        height: 0,
        largest: 0,
        least: 0,
    }
}
