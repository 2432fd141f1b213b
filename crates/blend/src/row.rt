// The step along the runs of a row, with a mask or without. The row's pixels are taken as they stand: who lends
// one with stray bytes clamps it first.
ghost use Rattle.std.specs.Prelude.{◌≡◌, ◌+◌, ◌*◌, ◌≤◌, ◌<◌, length, get_or};
ghost use Rattle.runs.specs.Runs.{start_of, expand, Runs};
ghost use Rattle.raster.specs.Surface.{run, pixel_in};
ghost use Rattle.blend.specs.PorterDuff.{mode_src_over, composite_on};
ghost use Rattle.blend.specs.Rows.{Coverage, composite_row};
ghost use Rattle.blend.specs.Spans.{length_of, keep_pixel};

use crate::bytewise::four;
use crate::factor::SRC_OVER;
use crate::masked::composite_masked;
use crate::span::{composite_painted, composite_span, over_laid};
use color::Pixel;
use raster::Range;

// A paint of one pixel for all of a row of w pixels, by the n runs of its coverage.
pub fn composite_runs(mode: u16, runs: &[u16], n: usize, src: Pixel, row: &mut [u8], w: usize)
    requires runs { Runs runs.now n w × (n ≤ length runs.now) × (length row.old ≡ w * 4) }
    requires coverage { Coverage (expand runs.now n) }
    ensures { row.new ≡ composite_row mode (expand runs.now n) (λ i. 255) (λ i. src) row.old }
{
    if mode == SRC_OVER && src.a < 255 {
        over_runs(runs, n, src, row, w);
        return;
    }
    span_runs(mode, runs, n, src, row, w);
}

// The same run by run, each with its own look at the mode.
fn span_runs(mode: u16, runs: &[u16], n: usize, src: Pixel, row: &mut [u8], w: usize)
    requires runs { Runs runs.now n w × (n ≤ length runs.now) × (length row.old ≡ w * 4) }
    requires coverage { Coverage (expand runs.now n) }
    ensures { row.new ≡ composite_row mode (expand runs.now n) (λ i. 255) (λ i. src) row.old }
{
    let mut a = 0;
    for j in 0..n {
        let e = (runs[j] / 32) as usize;
        let from = a * 4;
        let to = e * 4;
        composite_span(mode, (runs[j] % 32) as u8, src, &mut row[from..to], e - a);
        a = e;
    }
}

// A pixel under SrcOver: 16 of it are laid out for all runs, beside what they keep of what is under them.
fn over_runs(runs: &[u16], n: usize, src: Pixel, row: &mut [u8], w: usize)
    requires runs { Runs runs.now n w × (n ≤ length runs.now) × (length row.old ≡ w * 4) }
    requires coverage { Coverage (expand runs.now n) }
    ensures { row.new ≡ composite_row mode_src_over (expand runs.now n) (λ i. 255) (λ i. src) row.old }
{
    let mut paint = [0; 64];
    let mut keep = [0; 64];
    raster::fill_row(&mut paint, 16, src);
    raster::fill_row(&mut keep, 16, four(255 - src.a));
    laid_runs(runs, n, &paint, &keep, row, w);
}

// The same run by run.
fn laid_runs(runs: &[u16], n: usize, paint: &[u8], keep: &[u8], row: &mut [u8], w: usize)
    requires runs { Runs runs.now n w × (n ≤ length runs.now) × (length row.old ≡ w * 4) }
    requires coverage { Coverage (expand runs.now n) }
    requires paint_value { (paint.now ≡ run 16 (λ i. pixel_in paint.now 0)) × (keep.now ≡ run 16 (λ i. keep_pixel (pixel_in paint.now 0))) }
    ensures { row.new ≡ composite_row mode_src_over (expand runs.now n) (λ i. 255) (λ i. pixel_in paint.now 0) row.old }
{
    let mut a = 0;
    for j in 0..n {
        let e = (runs[j] / 32) as usize;
        let from = a * 4;
        let to = e * 4;
        over_laid((runs[j] % 32) as u8, paint, keep, &mut row[from..to], e - a);
        a = e;
    }
}

// A paint of one pixel for each pixel of some of the n runs of a row of w pixels: what is lent of the paint and of the row begins where the first of
// them does, and ends where the last of them does.
pub fn composite_painted_runs(
    mode: u16,
    runs: &[u16],
    n: usize,
    some: Range,
    src: &[u8],
    row: &mut [u8],
    w: usize,
)
    requires runs { Runs runs.now n w × (some.from ≤ some.to) × (some.to ≤ n) × (n ≤ length runs.now) }
    requires src_len { (length src.now ≡ length_of runs.now some * 4) × (length row.old ≡ length_of runs.now some * 4) }
    requires coverage { Coverage (expand runs.now n) }
    ensures { row.new
        ≡ run (length_of runs.now some)
        (λ i. composite_on mode (get_or (expand runs.now n) (start_of runs.now some.from + i) 0) 255 (pixel_in src.now i)
        (pixel_in row.old i)) }
{
    let first = runs::start(runs, some.from);
    let mut a = 0;
    for j in some.from..some.to {
        let e = (runs[j] / 32) as usize - first;
        let from = a * 4;
        let to = e * 4;
        composite_painted(
            mode,
            (runs[j] % 32) as u8,
            &src[from..to],
            &mut row[from..to],
            e - a,
        );
        a = e;
    }
}

// The same through a mask of one byte for each of these pixels.
pub fn composite_masked_runs(
    mode: u16,
    runs: &[u16],
    n: usize,
    some: Range,
    mask: &[u8],
    src: &[u8],
    row: &mut [u8],
    w: usize,
)
    requires runs { Runs runs.now n w × (some.from ≤ some.to) × (some.to ≤ n) × (n ≤ length runs.now) }
    requires src_len { (length src.now ≡ length_of runs.now some * 4) × (length row.old ≡ length_of runs.now some * 4) }
    requires coverage { Coverage (expand runs.now n) × (length mask.now ≡ length_of runs.now some) }
    ensures { row.new
        ≡ run (length_of runs.now some)
        (λ i. composite_on mode (get_or (expand runs.now n) (start_of runs.now some.from + i) 0) (get_or mask.now i 0)
        (pixel_in src.now i) (pixel_in row.old i)) }
{
    let first = runs::start(runs, some.from);
    let mut a = 0;
    for j in some.from..some.to {
        let e = (runs[j] / 32) as usize - first;
        let from = a * 4;
        let to = e * 4;
        composite_masked(
            mode,
            (runs[j] % 32) as u8,
            &mask[a..e],
            &src[from..to],
            &mut row[from..to],
            e - a,
        );
        a = e;
    }
}
