// Rows that two edges cross, one up and one down: what lies between them is covered, so no sums are needed and no window.
ghost use Rattle.std.specs.Prelude.{◌≡◌, true, ◌+◌, ◌*◌, ◌^◌, ◌<◌, ◌≤◌, length};
ghost use Rattle.lists.specs.Lists.{tab};
ghost use Rattle.runs.specs.Runs.{expand, Runs};
ghost use Rattle.path.specs.Stored.{edges_of, Small};
ghost use Rattle.coverage.specs.Winding.{coverage};
ghost use Rattle.coverage.specs.Scanline.{Outlined};
ghost use Rattle.coverage.specs.Band.{Needed};
ghost use Rattle.coverage.specs.Between.{crossed_by, Crosses, Opposed, Ordered, lesser_of, greater_of, first_of, end_of, reached, reached_all, level_at};

use crate::column::{columns, rise};
use crate::edges::passes;
use crate::{Columns, Crossed, Line};
use path::Edge;
use path::edges::load;

// The runs of w pixels of a row, if two edges are listed for it, of which one goes up and one down past all of its sample rows. Returns how many there
// are, or 0 where that is not so.
pub fn runs_between(scratch: &[i32], list: &[u32], runs: &mut [u16], line: Line, w: usize) -> usize
    requires outlined { Outlined scratch.now line.edges × Needed scratch.now line.edges line.y list.now }
    requires y_bound { (line.y < 1024) × (line.x + w ≤ 1024) × (w ≤ length runs.old) }
    ensures runs_len_unchanged { length runs.new ≡ length runs.old }
    ensures runs { 0 < result → Runs runs.new result w
        × (expand runs.new result
        ≡ tab w (λ i. coverage (edges_of scratch.now line.edges) line.nonzero (line.x + i) line.y)) }
{
    if list.len() != 2 {
        return 0;
    }
    let c = 4 * line.x;
    let s = cross(load(scratch, list[0] as usize), line.y, c, w * 4);
    let t = cross(load(scratch, list[1] as usize), line.y, c, w * 4);
    if is_opposed(s.way, t.way) {
        return fill_between(runs, w, lesser(s, t), greater(s, t));
    }
    0
}

// Where the count of an edge that goes past all sample rows of the pixel row y begins in each, among the k columns from c on, and which way it goes.
// The way is 0 where it does not.
fn cross(e: Edge, y: usize, c: usize, k: usize) -> Crossed
    requires { Small e × (y < 1024) × (c + k < 2 ^ 31) }
    ensures { Crosses c k y e result }
{
    let first = (256 * y + 32) as i32;
    let last = (256 * y + 224) as i32;
    let x0 = e.x0;
    let y0 = e.y0;
    let x1 = e.x1;
    let y1 = e.y1;
    if passes(y0, y1, first, last) {
        return crossed(1, columns(rise(x0, y0, x1, y1, first), c, k));
    }
    if passes(y1, y0, first, last) {
        return crossed(2, columns(rise(x1, y1, x0, y0, first), c, k));
    }
    Crossed {
        way: 0,
        a: 0,
        b: 0,
        c: 0,
        d: 0,
    }
}

// The four columns with the way.
#[tactic(auto, unfolding(crate::specs::Between::crossed_by))]
fn crossed(way: usize, s: Columns) -> Crossed
    ensures { result ≡ crossed_by way s }
{
    Crossed {
        way: way,
        a: s.a,
        b: s.b,
        c: s.c,
        d: s.d,
    }
}

// Whether one edge goes up and the other down.
fn is_opposed(a: usize, b: usize) -> bool
    ensures { result ≡ true → Opposed a b }
{
    (a == 1 && b == 2) || (a == 2 && b == 1)
}

// In each sample row, where the first of two edges begins.
#[tactic(auto, unfolding(crate::specs::Between::lesser_of))]
fn lesser(s: Crossed, t: Crossed) -> Columns
    ensures { result ≡ lesser_of s t }
{
    Columns {
        a: s.a.min(t.a),
        b: s.b.min(t.b),
        c: s.c.min(t.c),
        d: s.d.min(t.d),
    }
}

// And the last.
#[tactic(auto, unfolding(crate::specs::Between::greater_of))]
fn greater(s: Crossed, t: Crossed) -> Columns
    ensures { result ≡ greater_of s t }
{
    Columns {
        a: s.a.max(t.a),
        b: s.b.max(t.b),
        c: s.c.max(t.c),
        d: s.d.max(t.d),
    }
}

// The runs of w pixels that are covered from the columns lo to before the columns hi: pixels where a sample row begins or ends go one by one.
fn fill_between(runs: &mut [u16], w: usize, lo: Columns, hi: Columns) -> usize
    requires { Ordered lo hi (w * 4) × (w ≤ 1024) × (w ≤ length runs.old) }
    ensures runs { Runs runs.new result w × (length runs.new ≡ length runs.old) }
    ensures result_after { expand runs.new result ≡ tab w (level_at lo hi) }
{
    let a = first_of(lo);
    let b = end_of(lo);
    let e = b.max(first_of(hi));
    let d = end_of(hi);
    let n = runs::push(runs, 0, 0, a, 0);
    let m = push_each(runs, n, a, b, lo, hi);
    let q = runs::push(runs, m, b, e, 16);
    let r = push_each(runs, q, e, d, lo, hi);
    runs::push(runs, r, d, w, 0)
}

// The pixels p to before e one by one, after the n runs of the pixels before them. Returns how many runs there are then.
fn push_each(runs: &mut [u16], n: usize, p: usize, e: usize, lo: Columns, hi: Columns) -> usize
    requires runs { Runs runs.old n p × (p ≤ e) × (e ≤ length runs.old) × (e ≤ 1024) }
    requires n_value { expand runs.old n ≡ tab p (level_at lo hi) }
    ensures runs_2 { Runs runs.new result e × (length runs.new ≡ length runs.old) }
    ensures result_after { expand runs.new result ≡ tab e (level_at lo hi) }
{
    let mut m = n;
    for i in p..e {
        m = runs::push(runs, m, i, i + 1, level(lo, hi, i));
    }
    m
}

// The pixel in which the first of four columns lies, and the one behind the last of them.
#[tactic(auto, unfolding(crate::specs::Between::first_of))]
fn first_of(s: Columns) -> usize
    ensures { result ≡ first_of s }
{
    s.a.min(s.b).min(s.c.min(s.d)) / 4
}

#[tactic(auto, unfolding(crate::specs::Between::end_of))]
fn end_of(s: Columns) -> usize
    requires { (s.a ≤ 4096) × (s.b ≤ 4096) × (s.c ≤ 4096) × (s.d ≤ 4096) }
    ensures { result ≡ end_of s }
{
    (s.a.max(s.b).max(s.c.max(s.d)) + 3) / 4
}

// k of pixel p.
#[tactic(auto, unfolding(crate::specs::Between::level_at))]
fn level(lo: Columns, hi: Columns, p: usize) -> u8
    requires { p < 1024 }
    ensures { (result ≡ level_at lo hi p) × (result ≤ 16) }
{
    let h = all_reached(hi, p);
    let l = all_reached(lo, p);
    h.saturating_sub(l) as u8
}

// How many samples of pixel p lie before the four columns.
#[tactic(auto, unfolding(crate::specs::Between::reached_all))]
fn all_reached(s: Columns, p: usize) -> usize
    requires { p < 1024 }
    ensures { (result ≡ reached_all s p) × (result ≤ 16) }
{
    samples_before(s.a, p)
        + samples_before(s.b, p)
        + samples_before(s.c, p)
        + samples_before(s.d, p)
}

// And before one of them.
fn samples_before(c: usize, p: usize) -> usize
    requires { p < 1024 }
    ensures { (result ≡ reached c p) × (result ≤ 4) }
{
    c.saturating_sub(p * 4).min(4)
}
