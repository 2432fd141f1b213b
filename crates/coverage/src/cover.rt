// k of a row of pixels from the edges in the scratch.
//
//     a row of pixels has four rows of samples, a pixel four columns of them
//
//     224  . . . . | . . . .     Each edge that spans a sample row adds +1 or -1 at the first column at or right of its crossing. The
//     160  . . . . | . . . .     running sums along a sample row are the winding numbers; of a pixel's 16 samples those inside are k.
//      96  . . . . | . . . .     Where nothing begins in a pixel, its four sample rows go on as they were, and so does k.
//      32  . . . . | . . . .
ghost use Rattle.std.specs.Prelude.{◌≡◌, ◌++◌, ◌+◌, ◌*◌, ◌<◌, ◌≤◌, length};
ghost use Rattle.lists.specs.Lists.{tab};
ghost use Rattle.runs.specs.Runs.{expand, Runs};
ghost use Rattle.path.specs.Stored.{edges_of};
ghost use Rattle.coverage.specs.Winding.{coverage};
ghost use Rattle.coverage.specs.Scanline.{Outlined};
ghost use Rattle.coverage.specs.Band.{Needed};

use crate::between::runs_between;
use crate::edges::add_listed;
use crate::walk::take_runs;
use crate::{GROUP_NUMBERS, Line};

// The runs of the pixels from (x, y) on, in one row, of the path whose edges stand in the scratch: as many pixels as there are marks. Only the listed edges
// are looked at: the others miss the row. Returns how many runs there are.
pub fn coverage_runs(
    scratch: &mut [i32],
    list: &[u32],
    marks: &mut [u8],
    runs: &mut [u16],
    line: Line,
) -> usize
    requires outlined { Outlined scratch.old line.edges × Needed scratch.old line.edges line.y list.now }
    requires y_bound { (line.y < 1024) × (line.x + length marks.old ≤ 1024) × (length marks.old ≤ length runs.old) }
    ensures scratch_unchanged { scratch.new ≡ scratch.old }
    ensures runs { Runs runs.new result (length marks.old) }
    ensures result_after { expand runs.new result
        ≡ tab (length marks.old) (λ i. coverage (edges_of scratch.old line.edges) line.nonzero (line.x + i) line.y) }
{
    let n = runs_between(scratch, list, runs, line, marks.len());
    if 0 < n {
        return n;
    }
    summed_runs(scratch, list, marks, runs, line)
}

// The same by sums, window after window.
fn summed_runs(
    scratch: &mut [i32],
    list: &[u32],
    marks: &mut [u8],
    runs: &mut [u16],
    line: Line,
) -> usize
    requires outlined { Outlined scratch.old line.edges × Needed scratch.old line.edges line.y list.now }
    requires y_bound { (line.y < 1024) × (line.x + length marks.old ≤ 1024) × (length marks.old ≤ length runs.old) }
    ensures scratch_unchanged { scratch.new ≡ scratch.old }
    ensures runs { Runs runs.new result (length marks.old) }
    ensures result_after { expand runs.new result
        ≡ tab (length marks.old) (λ i. coverage (edges_of scratch.old line.edges) line.nonzero (line.x + i) line.y) }
{
    let most = (scratch.len() - line.edges * 4) / 16;
    let mut n = 0;
    let mut i = 0;
    while i < marks.len() {
        let end = (i + most).min(marks.len());
        n = window_runs(scratch, list, &mut marks[i..end], runs, line, n, i);
        i = end;
    }
    n
}

// The runs of a window of as many pixels as the scratch has room for, after the n runs of the pixels before it. Returns how many runs there are then.
fn window_runs(
    scratch: &mut [i32],
    list: &[u32],
    marks: &mut [u8],
    runs: &mut [u16],
    line: Line,
    n: usize,
    from: usize,
) -> usize
    requires outlined { Outlined scratch.old line.edges × Needed scratch.old line.edges line.y list.now }
    requires y_bound { (line.y < 1024) × (line.x + from + length marks.old ≤ 1024) × (line.edges * 4 + length marks.old * 16 ≤ length scratch.old) }
    requires runs { Runs runs.old n from × (from + length marks.old ≤ length runs.old) }
    ensures scratch_unchanged { scratch.new ≡ scratch.old }
    ensures runs_2 { Runs runs.new result (from + length marks.old) × (length runs.new ≡ length runs.old) }
    ensures result_after { expand runs.new result ≡ expand runs.old n
        ++ tab (length marks.old) (λ i. coverage (edges_of scratch.old line.edges) line.nonzero (line.x + from + i) line.y) }
{
    let mut groups = [0u16; GROUP_NUMBERS];
    marks.fill(0);
    let edges = line.edges;
    let at = edges * 4;
    let end = at + marks.len() * 16;
    add_listed(
        scratch,
        edges,
        list,
        4 * (line.x + from),
        line.y,
        marks,
        &mut groups,
    );
    take_runs(
        &mut scratch[at..end],
        marks,
        &groups,
        line.nonzero,
        runs,
        n,
        from,
    )
}
