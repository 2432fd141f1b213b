// A draw whose edges lie in the scratch, row after row: the coverage of each pixel, its paint, and both blended into the surface.
ghost use Rattle.std.specs.Prelude.{◌≡◌, true, cond, ◌+◌, ◌-◌, ◌*◌, ◌/◌, ◌≤◌, ◌<◌, length, get_or};
ghost use Rattle.lists.specs.Lists.{tab};
ghost use Rattle.runs.specs.Runs.{expand, Runs};
ghost use Rattle.raster.specs.Surface.{run, pixel_in};
ghost use Rattle.raster.specs.Rows.{Part, stepped};
ghost use Rattle.path.specs.Stored.{edges_of};
ghost use Rattle.coverage.specs.Scanline.{Outlined};
ghost use Rattle.coverage.specs.Scissors.{scissored};
ghost use Rattle.coverage.specs.Band.{Needed, Band};
ghost use Rattle.blend.specs.Rows.{Coverage, composite_row};
ghost use Rattle.scene.specs.Layout.{draw_bytes};
ghost use Rattle.scene.specs.Fields.{uses_mask};
ghost use Rattle.scene.specs.Accepted.{AcceptedFields};
ghost use Rattle.engine.specs.Picture.{mask_at};
ghost use Rattle.engine.specs.Unclamped.{unclamped_of};
ghost use Rattle.engine.specs.Rows.{coverage_with, mask_with, step_with, in_mode, SameBlend, shade_at, Shaded};
ghost use Rattle.engine.specs.Rows.{RowRoom, levels, RowCoverage, MaskFor, rows_of};

use crate::decode::{shade, style};
use crate::spans::GradientRow;
use crate::{Brush, Shade, Strip, Style};
use coverage::Line;
use paint::build::RAMP_NUMBERS;
use raster::{Range, Target};
use rect::Rect;

// Bytes for the longest row: four bytes of paint to a pixel. A row's marks, a byte to a pixel, stand there before its paint is made.
const ROW_BYTES: usize = 4096;

// Runs of the longest row: at most one to a pixel.
const ROW_RUNS: usize = 1024;

// Places of the edges that a band meets: a path has at most 2,049.
const BAND_EDGES: usize = 2049;

// Rows of a band, for which the edges that it meets are looked for once.
const BAND_ROWS: usize = 16;

// The draw of n edges, at every pixel of the target.
pub fn fill(
    surface: &mut [u8],
    scratch: &mut [i32],
    mask: &[u8],
    n: usize,
    d: &[u8],
    target: Target,
)
    requires d_len { (length d.now ≡ draw_bytes) × AcceptedFields d.now }
    requires outlined { Outlined scratch.old n }
    requires part { Part target surface.old × MaskFor (uses_mask d.now) (target.height * target.width) mask.now }
    ensures scratch_unchanged { scratch.new ≡ scratch.old }
    ensures surface_after { surface.new
        ≡ stepped target (unclamped_of (edges_of scratch.old n) d.now (mask_at target.width mask.now)) surface.old }
{
    let mut ramp = [0u32; RAMP_NUMBERS];
    let shade = shade(d, &mut ramp);
    let style = style(d, n, shade).hiding(&ramp);
    let brush = Brush {
        style,
        ramp: &ramp,
        scissors: scene::fields::scissors(d),
        mask,
    };
    let fill = FillArea { brush, target };
    fill.draw(surface, scratch);
}

impl Style {
    // The style in the mode Src if the paint is seen to hide what is under it: it is blended alike, and no row asks whether its paint is opaque.
    fn hiding(self, ramp: &[u32]) -> Style
        requires { Shaded self.shade ramp.now }
        ensures value { result ≡ in_mode self result.mode }
        ensures same_blend { SameBlend result.mode self.mode (shade_at self.shade ramp.now) }
    {
        let shade = self.shade;
        if shade.hides(self.mode, ramp) {
            return Style {
                mode: blend::factor::SRC,
                ..self
            };
        }
        self
    }
}

// A draw on a rectangle of the surface.
#[derive(Clone, Copy)]
pub struct FillArea<'a> {
    pub brush: Brush<'a>,
    pub target: Target,
    ghost masked: { MaskFor brush.style.masked (target.height * target.width) brush.mask.now },
}

impl FillArea<'_> {
    // The draw, with room for the edges of a band and for the longest row.
    fn draw(&self, surface: &mut [u8], scratch: &mut [i32])
        requires outlined { Outlined scratch.old self.now.brush.style.edges }
        requires part { Part self.now.target surface.old }
        ensures scratch_unchanged { scratch.new ≡ scratch.old }
        ensures surface_after { surface.new
            ≡ stepped self.now.target
            (λ x y. step_with self.now.brush.style (edges_of scratch.old self.now.brush.style.edges) self.now.brush.scissors.now
            self.now.brush.ramp.now (mask_at self.now.target.width self.now.brush.mask.now x y) x y)
            surface.old }
    {
        let n = self.target.area.x1 - self.target.area.x0;
        let mut list = [0u32; BAND_EDGES];
        let mut buffer = [0u8; ROW_BYTES];
        let mut runs = [0u16; ROW_RUNS];
        self.draw_bands(
            surface,
            scratch,
            &mut list,
            &mut buffer[0..n * 4],
            &mut runs[0..n],
        );
    }

    // Band after band of the target's rows. What the list, a number to an edge, the buffer, four bytes to a pixel of a row, and the runs hold afterwards
    // is free.
    fn draw_bands(
        &self,
        surface: &mut [u8],
        scratch: &mut [i32],
        list: &mut [u32],
        buffer: &mut [u8],
        runs: &mut [u16],
    )
        requires outlined { Outlined scratch.old self.now.brush.style.edges × (self.now.brush.style.edges ≤ length list.old) }
        requires part { Part self.now.target surface.old
            × RowRoom (self.now.target.area.x1 - self.now.target.area.x0) buffer.old runs.old }
        ensures scratch_unchanged { scratch.new ≡ scratch.old }
        ensures surface_after { surface.new
            ≡ stepped self.now.target
            (λ x y. step_with self.now.brush.style (edges_of scratch.old self.now.brush.style.edges) self.now.brush.scissors.now
            self.now.brush.ramp.now (mask_at self.now.target.width self.now.brush.mask.now x y) x y)
            surface.old }
    {
        let target = self.target;
        let y1 = target.area.y1;
        let mut y = target.area.y0;
        while y < y1 {
            let end = (y + BAND_ROWS).min(y1);
            let count = coverage::filter_edges(scratch, self.brush.style.edges, y, end, list);
            let band = FillArea {
                brush: self.brush,
                target: rows_of(target, y, end),
            };
            band.draw_rows(surface, scratch, &list[0..count], buffer, runs);
            y = end;
        }
    }

    // Row after row of the target, all of one band, whose edges are listed.
    fn draw_rows(
        &self,
        surface: &mut [u8],
        scratch: &mut [i32],
        list: &[u32],
        buffer: &mut [u8],
        runs: &mut [u16],
    )
        requires outlined { Outlined scratch.old self.now.brush.style.edges
            × Band scratch.old self.now.brush.style.edges self.now.target.area.y0 self.now.target.area.y1 list.now }
        requires part { Part self.now.target surface.old
            × RowRoom (self.now.target.area.x1 - self.now.target.area.x0) buffer.old runs.old }
        ensures scratch_unchanged { scratch.new ≡ scratch.old }
        ensures surface_after { surface.new
            ≡ stepped self.now.target
            (λ x y. step_with self.now.brush.style (edges_of scratch.old self.now.brush.style.edges) self.now.brush.scissors.now
            self.now.brush.ramp.now (mask_at self.now.target.width self.now.brush.mask.now x y) x y)
            surface.old }
    {
        let brush = self.brush;
        let target = self.target;
        let x = target.area.x0;
        let length = target.area.x1 - x;
        for y in target.area.y0..target.area.y1 {
            let r = target.row_bytes(y);
            let m = mask_bytes(brush.style.masked, r);
            let own = Brush {
                style: brush.style,
                ramp: brush.ramp,
                scissors: brush.scissors,
                mask: &brush.mask[m.from..m.to],
            };
            let strip = Strip { x, y, length };
            let row = FillRow { brush: own, strip };
            row.draw(&mut surface[r.from..r.to], scratch, list, buffer, runs);
        }
    }
}

// The rows of a target from y to before end.
fn rows_of(t: Target, y: usize, end: usize) -> Target
    ensures { result ≡ rows_of t y end }
{
    Target {
        width: t.width,
        height: t.height,
        area: Rect {
            x0: t.area.x0,
            y0: y,
            x1: t.area.x1,
            y1: end,
        },
    }
}

// Where the mask's bytes of a row lie, whose pixels have those bytes in the surface: none are taken for a draw without the mask.
fn mask_bytes(masked: bool, row: Range) -> Range
    ensures { (result.from ≡ cond masked (row.from / 4) 0) × (result.to ≡ cond masked (row.to / 4) 0) }
{
    if masked {
        return Range {
            from: row.from / 4,
            to: row.to / 4,
        };
    }
    Range { from: 0, to: 0 }
}

// The same on a row, with the mask's bytes of its pixels.
#[derive(Clone, Copy)]
pub struct FillRow<'a> {
    pub brush: Brush<'a>,
    pub strip: Strip,
    ghost masked: { MaskFor brush.style.masked strip.length brush.mask.now },
}

impl FillRow<'_> {
    // The row: its coverage, and then its paint.
    fn draw(
        &self,
        row: &mut [u8],
        scratch: &mut [i32],
        list: &[u32],
        buffer: &mut [u8],
        runs: &mut [u16],
    )
        requires outlined { Outlined scratch.old self.now.brush.style.edges
            × Needed scratch.old self.now.brush.style.edges self.now.strip.y list.now }
        requires row_len { (length row.old ≡ self.now.strip.length * 4) × RowRoom self.now.strip.length buffer.old runs.old }
        ensures scratch_unchanged { scratch.new ≡ scratch.old }
        ensures row_after { row.new
            ≡ run self.now.strip.length
            (λ i. step_with self.now.brush.style (edges_of scratch.old self.now.brush.style.edges) self.now.brush.scissors.now
            self.now.brush.ramp.now (get_or self.now.brush.mask.now i 0) (self.now.strip.x + i) self.now.strip.y (pixel_in row.old i)) }
    {
        let n = self.strip.length;
        let count = self.cover(scratch, list, &mut buffer[0..n], runs);
        let covered = ShadedRow {
            brush: self.brush,
            strip: self.strip,
            runs: &runs[0..count],
        };
        covered.blend(row, buffer);
    }

    // The row's coverage as runs. What the marks, a byte to a pixel, hold afterwards is free. Returns the number of runs.
    fn cover(&self, scratch: &mut [i32], list: &[u32], marks: &mut [u8], runs: &mut [u16]) -> usize
        requires outlined { Outlined scratch.old self.now.brush.style.edges
            × Needed scratch.old self.now.brush.style.edges self.now.strip.y list.now }
        requires marks_len { (length marks.old ≡ self.now.strip.length) × (length runs.old ≡ self.now.strip.length) }
        ensures scratch_unchanged { scratch.new ≡ scratch.old }
        ensures runs { Runs runs.new result self.now.strip.length }
        ensures result_after { expand runs.new result
            ≡ tab self.now.strip.length
            (λ i. coverage_with self.now.brush.style (edges_of scratch.old self.now.brush.style.edges) self.now.brush.scissors.now
            (self.now.strip.x + i) self.now.strip.y) }
    {
        let style = self.brush.style;
        let strip = self.strip;
        let line = Line {
            edges: style.edges,
            x: strip.x,
            y: strip.y,
            nonzero: style.nonzero,
        };
        let n = coverage::coverage_runs(scratch, list, marks, runs, line);
        let scissored = style.scissors;
        match scissored {
            None => n,
            Some(count) => strip.scissor_runs(self.brush.scissors, count, marks, runs, n),
        }
    }
}

impl Strip {
    // The n runs with k = 0 outside of the scissors, so many of them: as bytes, in the place of the marks, and back.
    fn scissor_runs(
        self,
        scissors: &[u8],
        count: usize,
        marks: &mut [u8],
        runs: &mut [u16],
        n: usize,
    ) -> usize
        requires count_bound { (count ≤ 4) × (16 * count ≤ length scissors.now) }
        requires marks_len { (length marks.old ≡ self.length) × (length runs.old ≡ self.length) }
        requires runs { Runs runs.old n self.length × Coverage (expand runs.old n) }
        ensures runs_2 { Runs runs.new result self.length }
        ensures result_after { expand runs.new result
            ≡ tab self.length (λ i. scissored true scissors.now count (self.x + i) self.y (get_or (expand runs.old n) i 0)) }
    {
        runs::expand_row(runs, n, marks);
        coverage::scissors::scissor_row(scissors, count, self.x, self.y, marks);
        runs::collect(marks, runs)
    }
}

// The same where its coverage is known, by the runs of pixels that are covered alike.
#[derive(Clone, Copy)]
struct ShadedRow<'a> {
    brush: Brush<'a>,
    strip: Strip,
    runs: &'a [u16],
    ghost masked: { MaskFor brush.style.masked strip.length brush.mask.now },
    ghost covered: { RowCoverage strip.length runs.now },
}

impl ShadedRow<'_> {
    // The paint of each pixel, blended into the row's bytes, through the mask where the draw asks for it, with a buffer for the paint.
    fn blend(&self, row: &mut [u8], buffer: &mut [u8])
        requires row_len { (length row.old ≡ self.now.strip.length * 4) × (length buffer.old ≡ self.now.strip.length * 4) }
        ensures { row.new
            ≡ composite_row self.now.brush.style.mode (levels self.now.runs.now) (λ i. mask_with self.now.brush.style (get_or self.now.brush.mask.now i 0))
            (λ i. shade_at self.now.brush.style.shade self.now.brush.ramp.now (self.now.strip.x + i) self.now.strip.y) row.old }
    {
        if self.brush.style.masked {
            self.blend_masked(row, buffer);
        } else {
            self.blend_plain(row, buffer);
        }
    }

    // The same through the mask: the paint of each pixel is made, whatever its k.
    fn blend_masked(&self, row: &mut [u8], buffer: &mut [u8])
        requires row_len { (length row.old ≡ self.now.strip.length * 4) × (length buffer.old ≡ self.now.strip.length * 4) }
        requires mask_len { length self.now.brush.mask.now ≡ self.now.strip.length }
        ensures { row.new
            ≡ composite_row self.now.brush.style.mode (levels self.now.runs.now) (λ i. get_or self.now.brush.mask.now i 0)
            (λ i. shade_at self.now.brush.style.shade self.now.brush.ramp.now (self.now.strip.x + i) self.now.strip.y) row.old }
    {
        let runs = self.runs;
        let strip = self.strip;
        let shade = self.brush.style.shade;
        shade.row(self.brush.ramp, strip, buffer);
        let all = Range {
            from: 0,
            to: runs.len(),
        };
        blend::composite_masked_runs(
            self.brush.style.mode,
            runs,
            runs.len(),
            all,
            self.brush.mask,
            buffer,
            row,
            strip.length,
        );
    }

    // The same without a mask. A plain colour is blended as it is, a gradient is made where the row is covered.
    fn blend_plain(&self, row: &mut [u8], buffer: &mut [u8])
        requires { (length row.old ≡ self.now.strip.length * 4) × (length buffer.old ≡ self.now.strip.length * 4) }
        ensures { row.new
            ≡ composite_row self.now.brush.style.mode (levels self.now.runs.now) (λ i. 255)
            (λ i. shade_at self.now.brush.style.shade self.now.brush.ramp.now (self.now.strip.x + i) self.now.strip.y) row.old }
    {
        let mode = self.brush.style.mode;
        let runs = self.runs;
        let strip = self.strip;
        let shade = self.brush.style.shade;
        match shade {
            Shade::Solid(p) => blend::composite_runs(mode, runs, runs.len(), p, row, strip.length),
            Shade::Gradient(g) => {
                let part = GradientRow {
                    mode,
                    paint: g,
                    strip,
                    ramp: self.brush.ramp,
                    runs,
                };
                part.blend(row, buffer);
            }
        }
    }
}
