// One rectangle of pixels for all scissors: outside it there is nothing to draw.
ghost use Rattle.std.specs.Prelude.{◌≡◌, ◌+◌, ◌*◌, ◌≤◌, length};
ghost use Rattle.path.specs.Boxes.{within};
ghost use Rattle.coverage.specs.Clips.{scissor_rect, scissor_box};

use crate::scissors::run;
use rect::Rect;

// Pixels on the longest side of a surface.
const SIDE: usize = 1024;

// The rectangle round n scissors.
pub fn scissor_box(scissors: &[u8], n: usize) -> Rect
    requires { (n ≤ 4) × (16 * n ≤ length scissors.now) }
    ensures { result ≡ scissor_box scissors.now n }
{
    let mut b = Rect::EMPTY;
    for i in 0..n {
        b = b.join(scissor_rect(scissors, i));
    }
    b
}

// The ith scissor.
fn scissor_rect(scissors: &[u8], i: usize) -> Rect
    requires { 16 * i + 16 ≤ length scissors.now }
    ensures { result ≡ scissor_rect scissors.now i }
{
    let at = 16 * i;
    let columns = run(fixed::i32_at(scissors, at), fixed::i32_at(scissors, at + 8));
    let rows = run(
        fixed::i32_at(scissors, at + 4),
        fixed::i32_at(scissors, at + 12),
    );
    Rect {
        x0: pixel(columns.start),
        y0: pixel(rows.start),
        x1: pixel(columns.end),
        y1: pixel(rows.end),
    }
}

// A column or row number, cut to a surface's side.
fn pixel(z: i64) -> usize
    ensures { result ≡ within 1024 z }
{
    z.clamp(0, SIDE as i64) as usize
}
