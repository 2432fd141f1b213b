// Where the first draw hides the background, which need not be filled there: a panel's own, a rectangle over most of the surface in an opaque paint.
ghost use Rattle.std.specs.Prelude.{◌≡◌, true, ◌≤◌, length};
ghost use Rattle.path.specs.Stored.{edges_of};
ghost use Rattle.coverage.specs.Scanline.{Outlined};
ghost use Rattle.coverage.specs.Covers.{Covered};
ghost use Rattle.paint.specs.Buffers.{ramp_numbers};
ghost use Rattle.paint.specs.Circles.{HeldGradient};
ghost use Rattle.scene.specs.Layout.{draw_bytes};
ghost use Rattle.scene.specs.Header.{count_of, edition_of};
ghost use Rattle.scene.specs.Fields.{blend_of};
ghost use Rattle.scene.specs.Accepted.{AcceptedFields, AcceptedDraw, AcceptedScene};
ghost use Rattle.engine.specs.Picture.{first_draws, draw_paint};
ghost use Rattle.engine.specs.Unclamped.{unclamped_step, unclamped_all};
ghost use Rattle.engine.specs.Rows.{gradient_tinted, shade_at, Shaded, Blank};
ghost use Rattle.engine.specs.Background.{HidingPaint, HidesCovered, Hides};

use crate::decode::shade;
use crate::edges::{clear_edges, lay_edges};
use crate::{Shade, TintedGradient};
use paint::build::RAMP_NUMBERS;
use rect::Rect;

// The segments of a path that is looked at: a rectangle has five, and longer paths are not worth the time.
const FEW_SEGMENTS: usize = 8;

// The pixels that the first of the scene's draws is seen to hide, on a surface of that size. d is a buffer for a draw. What it holds afterwards is free.
pub fn hidden_rect(
    scratch: &mut [i32],
    scene: &[u8],
    count: usize,
    d: &mut [u8],
    width: usize,
    height: usize,
) -> Rect
    requires accepted_scene { AcceptedScene scene.now × ((count ≡ count_of scene.now) × (length d.old ≡ draw_bytes)) }
    requires blank { Blank scratch.old }
    requires width_bound { (width ≤ 1024) × (height ≤ 1024) }
    ensures scratch_unchanged { scratch.new ≡ scratch.old }
    ensures hides { Hides result (unclamped_all (edition_of scene.now) (first_draws scene.now count)) }
{
    if count == 0 {
        return Rect::EMPTY;
    }
    let edition = scene::header::edition(scene);
    scene::blocks::read_draw(scene, 0, d);
    hidden_by(scratch, d, edition, width, height)
}

// The same of a draw of a scene of that edition.
fn hidden_by(scratch: &mut [i32], d: &[u8], edition: u32, width: usize, height: usize) -> Rect
    requires d_len { (length d.now ≡ draw_bytes) × AcceptedDraw edition d.now }
    requires blank { Blank scratch.old }
    requires width_bound { (width ≤ 1024) × (height ≤ 1024) }
    ensures scratch_unchanged { scratch.new ≡ scratch.old }
    ensures hides { Hides result (unclamped_step edition d.now) }
{
    if hides_covered(d) {
        let n = lay_edges(scratch, d, edition);
        let r = covered_rect(scratch, n, width, height);
        clear_edges(scratch, n);
        return r;
    }
    Rect::EMPTY
}

// Pixels that n edges are seen to cover whole: their box, or their box without its outermost pixels, or none. A side that lies on the border of two pixels
// has both in the box, so that the box itself is covered only where it goes up to the side of the surface.
fn covered_rect(scratch: &[i32], n: usize, width: usize, height: usize) -> Rect
    requires outlined { Outlined scratch.now n }
    requires width_bound { (width ≤ 1024) × (height ≤ 1024) }
    ensures { Covered (edges_of scratch.now n) result }
{
    let b = outline::bounds::bounds(scratch, n, width, height);
    if b.is_empty() {
        return b;
    }
    if is_covered(scratch, n, b) {
        return b;
    }
    let inner = Rect {
        x0: b.x0 + 1,
        y0: b.y0 + 1,
        x1: b.x1 - 1,
        y1: b.y1 - 1,
    };
    if is_covered(scratch, n, inner) {
        return inner;
    }
    Rect::EMPTY
}

// Whether they are seen to cover a rectangle that has a pixel.
fn is_covered(scratch: &[i32], n: usize, a: Rect) -> bool
    requires outlined { Outlined scratch.now n }
    requires x1_bound { (a.x1 ≤ 1024) × (a.y1 ≤ 1024) }
    ensures { result ≡ true → Covered (edges_of scratch.now n) a }
{
    if a.is_empty() {
        return false;
    }
    coverage::covers::covers(scratch, n, a)
}

// Whether a draw is seen to hide what its path covers, and its path is short.
fn hides_covered(d: &[u8]) -> bool
    requires { (length d.now ≡ draw_bytes) × AcceptedFields d.now }
    ensures { result ≡ true → HidesCovered d.now }
{
    if scene::fields::segment_count(d) > FEW_SEGMENTS {
        return false;
    }
    if scene::fields::scissoring(d) {
        return false;
    }
    if scene::fields::uses_mask(d) {
        return false;
    }
    let mut ramp = [0u32; RAMP_NUMBERS];
    paint_hides(d, &mut ramp)
}

// Whether its paint is seen to hide. The run is for its ramp, and what it holds afterwards is free.
fn paint_hides(d: &[u8], ramp: &mut [u32]) -> bool
    requires d_len { (length d.now ≡ draw_bytes) × AcceptedFields d.now }
    requires ramp_numbers_in_bounds { ramp_numbers ≤ length ramp.old }
    ensures { result ≡ true → HidingPaint (blend_of d.now) (draw_paint d.now) }
{
    let mode = scene::fields::blend_mode(d);
    let shade = shade(d, ramp);
    shade.hides(mode, ramp)
}

impl Shade {
    // Whether the paint is seen to hide what is under it, in a mode.
    pub fn hides(self, mode: u16, ramp: &[u32]) -> bool
        requires { Shaded self ramp.now }
        ensures { result ≡ true → HidingPaint mode (shade_at self ramp.now) }
    {
        match self {
            Shade::Solid(p) => blend::factor::hides(mode, p.a),
            Shade::Gradient(g) => g.hides(mode, ramp),
        }
    }
}

impl TintedGradient {
    // Of a gradient, an opaque one is seen to hide, without a colour transformation.
    fn hides(self, mode: u16, ramp: &[u32]) -> bool
        requires { HeldGradient self.gradient ramp.now }
        ensures { result ≡ true → HidingPaint mode (gradient_tinted self ramp.now) }
    {
        let gradient = self.gradient;
        let tint = self.tint;
        match tint {
            None => {
                if blend::factor::hides(mode, 255) {
                    return paint::opacity::is_opaque(gradient, ramp);
                }
                false
            }
            Some(t) => false,
        }
    }
}
