// The column from which an edge counts.
ghost use Rattle.std.specs.Prelude.{◌≡◌, ◌+◌, ◌*◌, ◌^◌, ◌<◌, ◌≤◌, pos, nat_abs, ◌-ℤ◌, ◌*ℤ◌, ◌<ℤ◌, ◌&&◌};
ghost use Rattle.std.specs.Int.Signed.{lt_z, le_z};
ghost use Rattle.path.specs.Stored.{Small};
ghost use Rattle.coverage.specs.Scanline.{ceil_div, first_column, place, edge, rise_of, columns_of, start_of, Sloped};

use crate::{Columns, Rise, Start};
use path::Edge;

// Of an edge that goes up: the first column whose sample is at or right of its crossing with the row y, in the window of k columns from c on.
fn column_in(x0: i32, y0: i32, x1: i32, y1: i32, y: i32, c: usize, k: usize) -> usize
    requires y0_lt_y1 { y0 <ℤ y1 }
    requires x0_bound { (nat_abs x0 ≤ 8388608) × (nat_abs y0 ≤ 8388608) × (nat_abs x1 ≤ 8388608) × (nat_abs y1 ≤ 8388608) × (nat_abs y ≤ 8388608) }
    requires k_bound { c + k < 2 ^ 31 }
    ensures { result ≡ place c k (first_column (edge x0 y0 x1 y1) y) }
{
    let r = rise(x0, y0, x1, y1, y);
    column_of(r.n, r.d, c, k)
}

// The slope of an edge that goes up, from its crossing with the row y on.
pub fn rise(x0: i32, y0: i32, x1: i32, y1: i32, y: i32) -> Rise
    requires y0_lt_y1 { y0 <ℤ y1 }
    requires x0_bound { (nat_abs x0 ≤ 8388608) × (nat_abs y0 ≤ 8388608) × (nat_abs x1 ≤ 8388608) × (nat_abs y1 ≤ 8388608) × (nat_abs y ≤ 8388608) }
    ensures value { result ≡ rise_of (edge x0 y0 x1 y1) y }
    ensures sloped { Sloped result }
{
    let d = (y1 as i64) - (y0 as i64);
    let dx = (x1 as i64) - (x0 as i64);
    Rise {
        n: ((y as i64) - (y0 as i64)) * dx + ((x0 as i64) - 32) * d,
        d: d,
        step: 64 * dx,
    }
}

// The first columns at or right of the crossings with the four sample rows, in the window of k columns from c on. Where the first of them is the last,
// so are those between.
pub fn columns(r: Rise, c: usize, k: usize) -> Columns
    requires { Sloped r × (c + k < 2 ^ 31) }
    ensures { result ≡ columns_of c k r }
{
    let n = r.n;
    let d = r.d;
    let step = r.step;
    let w = 64 * d;
    let low = (c as i64) * w;
    let high = ((c + k) as i64 - 1) * w;
    let first = column_at(n, d, low, high, c, k);
    let last = column_at(n + 3 * step, d, low, high, c, k);
    if first == last {
        return Columns {
            a: first,
            b: first,
            c: first,
            d: first,
        };
    }
    Columns {
        a: first,
        b: column_at(n + step, d, low, high, c, k),
        c: column_at(n + 2 * step, d, low, high, c, k),
        d: last,
    }
}

// The first column at or right of n / 64 d, in the window of k columns from c on.
fn column_of(n: i64, d: i64, c: usize, k: usize) -> usize
    requires { (pos 0 <ℤ d) × (nat_abs d ≤ 16777216) × (nat_abs n ≤ 562949953421312) × (c + k < 2 ^ 31) }
    ensures { result ≡ place c k (ceil_div n (64 * nat_abs d)) }
{
    let w = 64 * d;
    column_at(n, d, (c as i64) * w, ((c + k) as i64 - 1) * w, c, k)
}

// The same, with the first and the last column of the window as low and high, in parts of 1 / 64 d. Only inside the window is there a division.
fn column_at(n: i64, d: i64, low: i64, high: i64, c: usize, k: usize) -> usize
    requires pos_bound { (pos 0 <ℤ d) × (nat_abs d ≤ 16777216) × (nat_abs n ≤ 562949953421312) × (c + k < 2 ^ 31) }
    requires low_value { (low ≡ pos c *ℤ (pos 64 *ℤ d)) × (high ≡ (pos (c + k) -ℤ pos 1) *ℤ (pos 64 *ℤ d)) }
    ensures { result ≡ place c k (ceil_div n (64 * nat_abs d)) }
{
    if n <= low {
        return 0;
    }
    if high < n {
        return k;
    }
    (n + 64 * d - 1) as usize / 64 / (d as usize) - c
}

// Whether a row lies from lo on and below hi.
fn between(lo: i32, hi: i32, y: i32) -> bool
    ensures { result ≡ le_z lo y && lt_z y hi }
{
    lo <= y && y < hi
}

// Where the edge's count begins among the k columns from c on, in the row y, and what it counts.
pub fn start(e: Edge, y: i32, c: usize, k: usize) -> Start
    requires small { Small e }
    requires y_bound { (nat_abs y ≤ 8388608) × (c + k < 2 ^ 31) }
    ensures { result ≡ start_of c k y e }
{
    let x0 = e.x0;
    let y0 = e.y0;
    let x1 = e.x1;
    let y1 = e.y1;
    if between(y0, y1, y) {
        return Start {
            at: column_in(x0, y0, x1, y1, y, c, k),
            by: 1,
        };
    }
    if between(y1, y0, y) {
        return Start {
            at: column_in(x1, y1, x0, y0, y, c, k),
            by: -1,
        };
    }
    Start { at: k, by: 0 }
}
