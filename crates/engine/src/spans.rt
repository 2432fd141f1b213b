// A row of a gradient: its paint is made, and blended, only where the row is covered.
ghost use Rattle.std.specs.Prelude.{◌≡◌, ◌+◌, ◌-◌, ◌*◌, ◌≤◌, ◌<◌, length, get_or};
ghost use Rattle.runs.specs.Runs.{start_of};
ghost use Rattle.raster.specs.Surface.{run, pixel_in};
ghost use Rattle.paint.specs.declared.AnyGradient.TheVariants.{Linear};
ghost use Rattle.paint.specs.Circles.{HeldGradient};
ghost use Rattle.blend.specs.PorterDuff.{composite_on};
ghost use Rattle.blend.specs.Rows.{composite_row};
ghost use Rattle.engine.specs.Rows.{gradient_tinted, levels, RowCoverage};
ghost use Rattle.engine.specs.Spans.{Uncovered};
ghost use Rattle.engine.specs.Props.{held_prop};

use crate::decode::tinted;
use crate::{Strip, TintedGradient};
use paint::{AnyGradient, LinearGradient};
use raster::Range;

// A row of a gradient whose coverage is known: the blend mode, the gradient with its ramp, and the runs of pixels that are covered alike.
#[derive(Clone, Copy)]
pub struct GradientRow<'a> {
    pub mode: u16,
    pub paint: TintedGradient,
    pub strip: Strip,
    pub ramp: &'a [u32],
    pub runs: &'a [u16],
    ghost held: { HeldGradient paint.gradient ramp.now } by { held_prop paint.gradient ramp.now },
    ghost covered: { RowCoverage strip.length runs.now },
}

impl GradientRow<'_> {
    // The row's bytes, with a buffer for its paint. One colour is blended as a plain one is.
    pub fn blend(&self, row: &mut [u8], buffer: &mut [u8])
        requires { (length row.old ≡ self.now.strip.length * 4) × (length buffer.old ≡ self.now.strip.length * 4) }
        ensures { row.new
            ≡ composite_row self.now.mode (levels self.now.runs.now) (λ i. 255)
            (λ i. gradient_tinted self.now.paint self.now.ramp.now (self.now.strip.x + i) self.now.strip.y) row.old }
    {
        let gradient = self.paint.gradient;
        match gradient {
            AnyGradient::Linear(l) => {
                let p = l.points;
                if p.x0 == p.x1 {
                    self.blend_level(l, row);
                    return;
                }
            }
            AnyGradient::Radial(r) => {}
        }
        self.blend_parts(row, buffer);
    }

    // The same of a linear gradient straight up or down, which has one colour along the row: one pixel of paint is made.
    fn blend_level(&self, l: LinearGradient, row: &mut [u8])
        requires linear { (self.now.paint.gradient ≡ Linear l) × (l.points.x0 ≡ l.points.x1) }
        requires row_len { length row.old ≡ self.now.strip.length * 4 }
        ensures { row.new
            ≡ composite_row self.now.mode (levels self.now.runs.now) (λ i. 255)
            (λ i. gradient_tinted self.now.paint self.now.ramp.now (self.now.strip.x + i) self.now.strip.y) row.old }
    {
        let strip = self.strip;
        let tint = self.paint.tint;
        let p = tinted(
            tint,
            paint::row::linear_pixel(l, self.ramp, strip.x, strip.y),
        );
        blend::composite_runs(self.mode, self.runs, self.runs.len(), p, row, strip.length);
    }

    // The same part after part: the paint of each covered part is made.
    fn blend_parts(&self, row: &mut [u8], buffer: &mut [u8])
        requires { (length row.old ≡ self.now.strip.length * 4) × (length buffer.old ≡ self.now.strip.length * 4) }
        ensures { row.new
            ≡ composite_row self.now.mode (levels self.now.runs.now) (λ i. 255)
            (λ i. gradient_tinted self.now.paint self.now.ramp.now (self.now.strip.x + i) self.now.strip.y) row.old }
    {
        let runs = self.runs;
        let mut j = covered_from(runs, 0);
        while j < runs.len() {
            let m = covered_to(runs, j);
            let from = runs::start(runs, j) * 4;
            let to = runs::start(runs, m) * 4;
            self.blend_part(&mut row[from..to], buffer, Range { from: j, to: m });
            j = covered_from(runs, m);
        }
    }

    // A part of the row, some of its runs, lent as its bytes.
    fn blend_part(&self, row: &mut [u8], buffer: &mut [u8], part: Range)
        requires part { (part.from ≤ part.to) × (part.to ≤ length self.now.runs.now) }
        requires row_len { (length row.old ≡ (start_of self.now.runs.now part.to - start_of self.now.runs.now part.from) * 4)
            × (length buffer.old ≡ self.now.strip.length * 4) }
        ensures { row.new
            ≡ run (start_of self.now.runs.now part.to - start_of self.now.runs.now part.from)
            (λ i. composite_on self.now.mode (get_or (levels self.now.runs.now) (start_of self.now.runs.now part.from + i) 0) 255
            (gradient_tinted self.now.paint self.now.ramp.now (self.now.strip.x + (start_of self.now.runs.now part.from + i)) self.now.strip.y)
            (pixel_in row.old i)) }
    {
        let strip = self.strip;
        let a = runs::start(self.runs, part.from);
        let e = runs::start(self.runs, part.to);
        let covered = Strip {
            x: strip.x + a,
            y: strip.y,
            length: e - a,
        };
        let m = covered.length * 4;
        let paint = self.paint;
        paint.row(self.ramp, covered, &mut buffer[0..m]);
        blend::composite_painted_runs(
            self.mode,
            self.runs,
            self.runs.len(),
            part,
            &buffer[0..m],
            row,
            strip.length,
        );
    }
}

// The first run from j on of which a sample is covered, or their number.
fn covered_from(runs: &[u16], j: usize) -> usize
    requires { j ≤ length runs.now }
    ensures { Uncovered runs.now j result × (result ≤ length runs.now) }
{
    for r in j..runs.len() {
        if runs[r] % 32 != 0 {
            return r;
        }
    }
    runs.len()
}

// The first run after j of which no sample is covered, or their number.
fn covered_to(runs: &[u16], j: usize) -> usize
    requires { j < length runs.now }
    ensures { (j < result) × (result ≤ length runs.now) }
{
    for r in j + 1..runs.len() {
        if runs[r] % 32 == 0 {
            return r;
        }
    }
    runs.len()
}
