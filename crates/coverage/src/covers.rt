// Whether a path covers a whole rectangle, as a background does: then no row of it has to be scanned.
ghost use Rattle.std.specs.Prelude.{◌≡◌, true, ◌*◌, ◌<◌, ◌≤◌};
ghost use Rattle.path.specs.Stored.{edges_of};
ghost use Rattle.coverage.specs.Scanline.{edge, beyond, Outlined};
ghost use Rattle.coverage.specs.Covers.{across, alongside, part_of, Covered};

use crate::band::needed;
use path::edges::load;
use rect::Rect;

// Whether the edges are seen to cover every sample of a rectangle: one of them goes along its left side, past its first and its last row of samples, and the
// others are level, above or below it, or right of it.
pub fn covers(scratch: &[i32], n: usize, a: Rect) -> bool
    requires outlined { Outlined scratch.now n }
    requires x0_bound { (a.x0 ≤ 1024) × (a.x1 ≤ 1024) × (a.y0 < a.y1) × (a.y1 ≤ 1024) }
    ensures { result ≡ true → Covered (edges_of scratch.now n) a }
{
    let mut found = 0;
    for i in 0..n {
        let e = load(scratch, i);
        found += part_of(e.x0, e.y0, e.x1, e.y1, a);
    }
    found == 1
}

// What an edge is to a rectangle: 0 where it counts at no sample, 1 where it goes along the left side, 2 where neither is seen.
fn part_of(x0: i32, y0: i32, x1: i32, y1: i32, a: Rect) -> usize
    requires { (a.x0 ≤ 1024) × (a.x1 ≤ 1024) × (a.y0 < a.y1) × (a.y1 ≤ 1024) }
    ensures { (result ≡ part_of a (edge x0 y0 x1 y1)) × (result ≤ 2) }
{
    if needed(y0, y1, a.y0, a.y1) == 0 {
        return 0;
    }
    if is_right(x0, x1, a.x1) {
        return 0;
    }
    if is_alongside(x0, y0, x1, y1, a) {
        1
    } else {
        2
    }
}

// Whether an edge lies right of every sample before the column end.
fn is_right(x0: i32, x1: i32, end: usize) -> bool
    requires { end ≤ 1024 }
    ensures { result ≡ beyond x0 x1 (4 * end) }
{
    let right = (256 * end) as i32;
    right <= x0 && right <= x1
}

// Whether an edge goes along the left side, up or down.
fn is_alongside(x0: i32, y0: i32, x1: i32, y1: i32, a: Rect) -> bool
    requires { (a.x0 ≤ 1024) × (a.x1 ≤ 1024) × (a.y0 < a.y1) × (a.y1 ≤ 1024) }
    ensures { result ≡ alongside (edge x0 y0 x1 y1) a }
{
    let first = (256 * a.x0 + 32) as i32;
    if x0 <= first {
        if x1 <= first {
            if is_across(y0, y1, a.y0, a.y1) {
                return true;
            }
            return is_across(y1, y0, a.y0, a.y1);
        }
    }
    false
}

// Whether every row of samples of the pixel rows from to end - 1 lies between two ends.
fn is_across(low: i32, high: i32, from: usize, end: usize) -> bool
    requires { (from < end) × (end ≤ 1024) }
    ensures { result ≡ across low high from end }
{
    let first = (256 * from + 32) as i32;
    let last = (256 * end - 32) as i32;
    low <= first && last < high
}
