// From what begins at each column to runs of pixels that are covered alike. Of a group only the pixels from its first mark to its last are looked at.
ghost use Rattle.std.specs.Prelude.{◌≡◌, ◌++◌, ◌+◌, ◌*◌, ◌<◌, ◌≤◌, min, length};
ghost use Rattle.lists.specs.Lists.{tab};
ghost use Rattle.runs.specs.Runs.{expand, Runs};
ghost use Rattle.coverage.specs.Scanline.{at, zeros, pixel_of, Marked, Tame};
ghost use Rattle.coverage.specs.Marks.{Grouped, Blank};

use crate::Cell;
use crate::samples::take_cell;

// The runs of a window by the sums, which are set to 0, and the marks, after the n runs of the pixels before it. Returns how many runs there are then.
pub fn take_runs(
    sums: &mut [i32],
    marks: &[u8],
    groups: &[u16],
    nonzero: bool,
    runs: &mut [u16],
    n: usize,
    from: usize,
) -> usize
    requires sums_len { (length sums.old ≡ length marks.now * 16) × Marked marks.now (at sums.old) × Tame sums.old (length marks.now * 4) }
    requires grouped { Grouped marks.now groups.now }
    requires runs { Runs runs.old n from × (from + length marks.now ≤ length runs.old) × (from + length marks.now < 2048) }
    ensures sums_after { sums.new ≡ zeros (length sums.old) }
    ensures runs_2 { Runs runs.new result (from + length marks.now) × (length runs.new ≡ length runs.old) }
    ensures result_after { expand runs.new result
        ≡ expand runs.old n ++ tab (length marks.now) (pixel_of nonzero sums.old) }
{
    let mut z = Cell {
        a: 0,
        b: 0,
        c: 0,
        d: 0,
        full: 0,
        count: 0,
    };
    let mut e = group_from(marks, groups, 0);
    let mut m = runs::push(runs, n, from, from + e, 0);
    while e < marks.len() {
        z = take_cell(sums, e, z, nonzero);
        let p = e + 1;
        m = runs::push(runs, m, from + e, from + p, z.count);
        e = next_mark(marks, groups, p);
        m = runs::push(runs, m, from + p, from + e, z.full);
    }
    m
}

// The first marked pixel from p on, or the window's end.
fn next_mark(marks: &[u8], groups: &[u16], p: usize) -> usize
    requires { (p ≤ length marks.now) × Grouped marks.now groups.now }
    ensures { Blank marks.now p result }
{
    if marks.len() <= p {
        return p;
    }
    let last = (groups[p / 64] as usize).min(marks.len());
    if p < last {
        return scan(marks, p, last);
    }
    group_from(marks, groups, p / 64 + 1)
}

// The first marked pixel of the groups from number g on, or the window's end.
fn group_from(marks: &[u8], groups: &[u16], g: usize) -> usize
    requires { (g ≤ 16) × Grouped marks.now groups.now }
    ensures { Blank marks.now (min (g * 64) (length marks.now)) result }
{
    let mut h = g;
    while h * 64 < marks.len() {
        let back = (groups[16 + h] as usize).min(64);
        if back != 0 {
            return (h * 64 + (64 - back)).min(marks.len());
        }
        h += 1;
    }
    marks.len()
}

// The first marked pixel from p on and before end, or end.
fn scan(marks: &[u8], p: usize, end: usize) -> usize
    requires { (p ≤ end) × (end ≤ length marks.now) }
    ensures { Blank marks.now p result }
{
    for e in p..end {
        if marks[e] != 0 {
            return e;
        }
    }
    end
}
