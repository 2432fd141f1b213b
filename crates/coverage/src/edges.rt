// What begins at each column of a window, in the four rows of samples of one row of pixels. Number 4 j + r of the sums is for column j and
// sample row r, so that the 16 numbers of a pixel stand together.
ghost use Rattle.std.specs.Prelude.{◌≡◌, cond, ◌&&◌, ◌+◌, ◌*◌, ◌/◌, ◌^◌, ◌<◌, ◌≤◌, min, max, eqb, ltb, pos, nat_abs, length, get_or, set};
ghost use Rattle.std.specs.Int.Signed.{le_z, lt_z};
ghost use Rattle.path.specs.Stored.{edge_at, edges_of};
ghost use Rattle.coverage.specs.Scanline.{laid, zeros, missed, beyond, start_with, bumped, bumped_four, put_row, put_rows, sums_at, with_sums};
ghost use Rattle.coverage.specs.Scanline.{Low, LowFour, Fits, FitRows, Straight, Edges, Marked};
ghost use Rattle.coverage.specs.Marks.{mark_rows, Grouped};
ghost use Rattle.coverage.specs.Band.{Needed};

use crate::column::{columns, rise, start};
use crate::marks::{mark, touch};
use crate::{Columns, Start};
use path::Edge;
use path::edges::load;

// Whether an edge has no sample row of the pixel row y between its ends.
fn misses(y0: i32, y1: i32, y: usize) -> bool
    requires { y < 1024 }
    ensures { result ≡ missed y0 y1 y }
{
    let first = (256 * y + 32) as i32;
    let last = (256 * y + 224) as i32;
    if y0 <= first {
        y1 <= first
    } else {
        last < y0 && last < y1
    }
}

// Whether an edge lies right of every sample before the column c.
fn is_beyond(x0: i32, x1: i32, c: usize) -> bool
    requires { c < 2 ^ 24 }
    ensures { result ≡ beyond x0 x1 c }
{
    let right = (64 * c) as i32;
    right <= x0 && right <= x1
}

// Adds to a number.
fn bump(scratch: &mut [i32], i: usize, by: i32)
    requires { (i < length scratch.old) × Low (get_or scratch.old i (pos 0)) × (nat_abs by ≤ 1) }
    ensures { scratch.new ≡ bumped scratch.old i by }
{
    let v = scratch[i] + by;
    scratch[i] = v;
}

// Adds to the four numbers from i on.
fn bump_four(scratch: &mut [i32], i: usize, by: i32)
    requires { (i + 3 < length scratch.old) × LowFour scratch.old i × (nat_abs by ≤ 1) }
    ensures { scratch.new ≡ bumped_four scratch.old i by }
{
    bump(scratch, i, by);
    bump(scratch, i + 1, by);
    bump(scratch, i + 2, by);
    bump(scratch, i + 3, by);
}

// Adds what begins in sample row r, at a column of the window, and marks its pixel. Its group is told by the caller.
fn put_inside(scratch: &mut [i32], base: usize, cover: &mut [u8], r: usize, s: Start)
    requires r_bound { (r < 4) × (base + length cover.old * 16 ≤ length scratch.old) × (s.at / 4 < length cover.old) }
    requires fits { Fits scratch.old base (length cover.old) r s }
    ensures scratch_after { scratch.new ≡ put_row base (length cover.old) r s scratch.old }
    ensures cover_after { cover.new ≡ set cover.old (s.at / 4) 1 }
{
    let at = s.at;
    cover[at / 4] = 1;
    bump(scratch, base + (at * 4 + r), s.by);
}

// Adds what begins in sample row r, and marks its pixel and its group. Right of the window nothing is to be done.
fn put(scratch: &mut [i32], base: usize, cover: &mut [u8], groups: &mut [u16], r: usize, s: Start)
    requires r_bound { (r < 4) × (base + length cover.old * 16 ≤ length scratch.old) × Grouped cover.old groups.old }
    requires fits { Fits scratch.old base (length cover.old) r s }
    ensures scratch_after { scratch.new ≡ put_row base (length cover.old) r s scratch.old }
    ensures cover_after { cover.new ≡ set cover.old (s.at / 4) 1 }
    ensures grouped { Grouped cover.new groups.new }
{
    let p = s.at / 4;
    if cover.len() <= p {
        return;
    }
    touch(groups, p, p);
    put_inside(scratch, base, cover, r, s);
}

// Adds what begins in all four sample rows at column at, and marks its pixel and its group. Right of the window nothing is to be done.
fn put_four(
    scratch: &mut [i32],
    base: usize,
    cover: &mut [u8],
    groups: &mut [u16],
    at: usize,
    by: i32,
)
    requires cover_in_bounds { (base + length cover.old * 16 ≤ length scratch.old) × (nat_abs by ≤ 1) }
    requires grouped { Grouped cover.old groups.old }
    requires low_four { at / 4 < length cover.old → LowFour scratch.old (base + at * 4) }
    ensures scratch_after { scratch.new
        ≡ cond (ltb (at / 4) (length cover.old)) (bumped_four scratch.old (base + at * 4) by) scratch.old }
    ensures cover_after { cover.new ≡ set cover.old (at / 4) 1 }
    ensures grouped_2 { Grouped cover.new groups.new }
{
    let p = at / 4;
    if cover.len() <= p {
        return;
    }
    mark(cover, groups, p);
    bump_four(scratch, base + at * 4, by);
}

// The first pixel in which one of four counts begins.
fn first_pixel(s: Start, u: Start, v: Start, t: Start) -> usize
    ensures { result ≡ min (min s.at u.at) (min v.at t.at) / 4 }
{
    s.at.min(u.at).min(v.at.min(t.at)) / 4
}

// The last of them.
fn last_pixel(s: Start, u: Start, v: Start, t: Start) -> usize
    ensures { result ≡ max (max s.at u.at) (max v.at t.at) / 4 }
{
    s.at.max(u.at).max(v.at.max(t.at)) / 4
}

// Whether pixels from lo to hi lie in a window of w, and in one group.
fn is_near(lo: usize, hi: usize, w: usize) -> bool
    ensures { result ≡ ltb hi w && eqb (lo / 64) (hi / 64) }
{
    hi < w && lo / 64 == hi / 64
}

// Adds what begins in the four sample rows, at columns of the window, and marks their pixels. Their group is told by the caller.
fn put_near(
    scratch: &mut [i32],
    base: usize,
    cover: &mut [u8],
    s: Start,
    u: Start,
    v: Start,
    t: Start,
)
    requires cover_in_bounds { (base + length cover.old * 16 ≤ length scratch.old) × FitRows scratch.old base (length cover.old) s u v t }
    requires at_in_bounds { max (max s.at u.at) (max v.at t.at) / 4 < length cover.old }
    ensures scratch_after { scratch.new ≡ put_rows base (length cover.old) s u v t scratch.old }
    ensures cover_after { cover.new ≡ mark_rows (s.at / 4) (u.at / 4) (v.at / 4) (t.at / 4) cover.old }
{
    put_inside(scratch, base, cover, 0, s);
    put_inside(scratch, base, cover, 1, u);
    put_inside(scratch, base, cover, 2, v);
    put_inside(scratch, base, cover, 3, t);
}

// The same wherever the columns are; each tells its group.
fn put_far(
    scratch: &mut [i32],
    base: usize,
    cover: &mut [u8],
    groups: &mut [u16],
    s: Start,
    u: Start,
    v: Start,
    t: Start,
)
    requires cover_in_bounds { (base + length cover.old * 16 ≤ length scratch.old) × Grouped cover.old groups.old }
    requires fit_rows { FitRows scratch.old base (length cover.old) s u v t }
    ensures scratch_after { scratch.new ≡ put_rows base (length cover.old) s u v t scratch.old }
    ensures cover_after { cover.new ≡ mark_rows (s.at / 4) (u.at / 4) (v.at / 4) (t.at / 4) cover.old }
    ensures grouped { Grouped cover.new groups.new }
{
    put(scratch, base, cover, groups, 0, s);
    put(scratch, base, cover, groups, 1, u);
    put(scratch, base, cover, groups, 2, v);
    put(scratch, base, cover, groups, 3, t);
}

// Adds what begins in the four sample rows. Where their columns lie in one group, it is told of all four at once.
fn put_rows(
    scratch: &mut [i32],
    base: usize,
    cover: &mut [u8],
    groups: &mut [u16],
    s: Start,
    u: Start,
    v: Start,
    t: Start,
)
    requires cover_in_bounds { (base + length cover.old * 16 ≤ length scratch.old) × Grouped cover.old groups.old }
    requires fit_rows { FitRows scratch.old base (length cover.old) s u v t }
    ensures scratch_after { scratch.new ≡ put_rows base (length cover.old) s u v t scratch.old }
    ensures cover_after { cover.new ≡ mark_rows (s.at / 4) (u.at / 4) (v.at / 4) (t.at / 4) cover.old }
    ensures grouped { Grouped cover.new groups.new }
{
    let lo = first_pixel(s, u, v, t);
    let hi = last_pixel(s, u, v, t);
    if is_near(lo, hi, cover.len()) {
        touch(groups, lo, hi);
        put_near(scratch, base, cover, s, u, v, t);
        return;
    }
    put_far(scratch, base, cover, groups, s, u, v, t);
}

// Whether an edge from lo up to hi goes past all sample rows from the first to the last.
pub fn passes(lo: i32, hi: i32, first: i32, last: i32) -> bool
    ensures { result ≡ le_z lo first && lt_z last hi }
{
    lo <= first && last < hi
}

// Adds what an edge begins that goes past all four sample rows. Its columns between lie between the first and the last, so that these two tell the
// group of all, and where they are one, all four are.
fn put_columns(
    scratch: &mut [i32],
    base: usize,
    cover: &mut [u8],
    groups: &mut [u16],
    s: Columns,
    by: i32,
)
    requires cover_in_bounds { (base + length cover.old * 16 ≤ length scratch.old) × Grouped cover.old groups.old × Straight s }
    requires fit_rows { FitRows scratch.old base (length cover.old) (start_with s.a by) (start_with s.b by) (start_with s.c by) (start_with s.d by) }
    ensures scratch_after { scratch.new
        ≡ put_rows base (length cover.old) (start_with s.a by) (start_with s.b by) (start_with s.c by) (start_with s.d by)
        scratch.old }
    ensures cover_after { cover.new ≡ mark_rows (s.a / 4) (s.b / 4) (s.c / 4) (s.d / 4) cover.old }
    ensures grouped { Grouped cover.new groups.new }
{
    let p = s.a;
    let q = s.d;
    if p == q {
        put_four(scratch, base, cover, groups, p, by);
        return;
    }
    let first = Start { at: p, by: by };
    let second = Start { at: s.b, by: by };
    let third = Start { at: s.c, by: by };
    let last = Start { at: q, by: by };
    let lo = p.min(q) / 4;
    let hi = p.max(q) / 4;
    if is_near(lo, hi, cover.len()) {
        touch(groups, lo, hi);
        put_near(scratch, base, cover, first, second, third, last);
        return;
    }
    put_far(scratch, base, cover, groups, first, second, third, last);
}

// Adds what the ith edge, e, begins in the pixel row y, in the window from column c on. Most edges go past all four sample rows, up or down; one that
// begins or ends among them is asked in each.
fn add_rows(
    scratch: &mut [i32],
    n: usize,
    i: usize,
    e: Edge,
    c: usize,
    y: usize,
    cover: &mut [u8],
    groups: &mut [u16],
)
    requires i_lt_n { (i < n) × (y < 1024) × (c + length cover.old * 4 < 2 ^ 24) × Grouped cover.old groups.old }
    requires edges { Edges scratch.old n (length cover.old * 16) × (e ≡ edge_at scratch.old i) }
    requires scratch_value { scratch.old ≡ with_sums n (length cover.old) c y i scratch.old }
    requires marked { Marked cover.old (sums_at c (length cover.old * 4) y (edges_of scratch.old i)) }
    ensures scratch_after { scratch.new ≡ with_sums n (length cover.old) c y (i + 1) scratch.old }
    ensures marked_2 { Marked cover.new (sums_at c (length cover.old * 4) y (edges_of scratch.old (i + 1))) }
    ensures grouped { Grouped cover.new groups.new }
{
    let base = n * 4;
    let k = cover.len() * 4;
    let first = (256 * y + 32) as i32;
    let last = (256 * y + 224) as i32;
    let x0 = e.x0;
    let y0 = e.y0;
    let x1 = e.x1;
    let y1 = e.y1;
    if passes(y0, y1, first, last) {
        put_columns(
            scratch,
            base,
            cover,
            groups,
            columns(rise(x0, y0, x1, y1, first), c, k),
            1,
        );
        return;
    }
    if passes(y1, y0, first, last) {
        put_columns(
            scratch,
            base,
            cover,
            groups,
            columns(rise(x1, y1, x0, y0, first), c, k),
            -1,
        );
        return;
    }
    let s = start(e, first, c, k);
    let t = start(e, last, c, k);
    let u = start(e, (256 * y + 96) as i32, c, k);
    let v = start(e, (256 * y + 160) as i32, c, k);
    put_rows(scratch, base, cover, groups, s, u, v, t);
}

// Adds what the ith edge begins in the pixel row y, in the window from column c on.
fn add_edge(
    scratch: &mut [i32],
    n: usize,
    i: usize,
    c: usize,
    y: usize,
    cover: &mut [u8],
    groups: &mut [u16],
)
    requires i_lt_n { (i < n) × (y < 1024) × (c + length cover.old * 4 < 2 ^ 24) × Grouped cover.old groups.old }
    requires edges { Edges scratch.old n (length cover.old * 16) }
    requires scratch_value { scratch.old ≡ with_sums n (length cover.old) c y i scratch.old }
    requires marked { Marked cover.old (sums_at c (length cover.old * 4) y (edges_of scratch.old i)) }
    ensures scratch_after { scratch.new ≡ with_sums n (length cover.old) c y (i + 1) scratch.old }
    ensures marked_2 { Marked cover.new (sums_at c (length cover.old * 4) y (edges_of scratch.old (i + 1))) }
    ensures grouped { Grouped cover.new groups.new }
{
    let e = load(scratch, i);
    let y0 = e.y0;
    let y1 = e.y1;
    if misses(y0, y1, y) {
        return;
    }
    let x0 = e.x0;
    let x1 = e.x1;
    if is_beyond(x0, x1, c + cover.len() * 4) {
        return;
    }
    add_rows(scratch, n, i, e, c, y, cover, groups);
}

// Adds what the listed edges begin in the pixel row y, in the window from column c on, and marks the pixels where something begins. The others miss
// the row.
pub fn add_listed(
    scratch: &mut [i32],
    n: usize,
    list: &[u32],
    c: usize,
    y: usize,
    cover: &mut [u8],
    groups: &mut [u16],
)
    requires y_bound { (y < 1024) × (c + length cover.old * 4 < 2 ^ 24) × Grouped cover.old groups.old }
    requires edges { Edges scratch.old n (length cover.old * 16) }
    requires scratch_value { scratch.old ≡ laid (n * 4) (length cover.old * 16) scratch.old (zeros (length cover.old * 16)) }
    requires needed { Needed scratch.old n y list.now }
    ensures scratch_after { scratch.new ≡ with_sums n (length cover.old) c y n scratch.old }
    ensures marked { Marked cover.new (sums_at c (length cover.old * 4) y (edges_of scratch.old n)) }
    ensures grouped { Grouped cover.new groups.new }
{
    for j in 0..list.len() {
        add_edge(scratch, n, list[j] as usize, c, y, cover, groups);
    }
}
