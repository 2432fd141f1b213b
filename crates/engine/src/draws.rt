// The draws of a scene, one after the other, inside a rectangle of the surface. The scratch is zero before and after each draw.
ghost use Rattle.std.specs.Prelude.{◌≡◌, true, ◌*◌, ◌≤◌, length};
ghost use Rattle.rect.specs.Rects.{empty_of, meet_of};
ghost use Rattle.raster.specs.Surface.{overlay};
ghost use Rattle.raster.specs.Rows.{Part, stepped};
ghost use Rattle.path.specs.Boxes.{box_of};
ghost use Rattle.path.specs.Closed.{Closed};
ghost use Rattle.path.specs.Stored.{edges_of};
ghost use Rattle.coverage.specs.Scanline.{Outlined};
ghost use Rattle.scene.specs.Layout.{draw_bytes};
ghost use Rattle.scene.specs.Header.{count_of, edition_of};
ghost use Rattle.scene.specs.Fields.{uses_mask};
ghost use Rattle.scene.specs.Accepted.{AcceptedFields, AcceptedDraw, AcceptedScene};
ghost use Rattle.engine.specs.Picture.{draw_edges, first_draws, pixel_at, mask_at};
ghost use Rattle.engine.specs.Unclamped.{unclamped_of, unclamped_step, unclamped_all};
ghost use Rattle.engine.specs.Rows.{Blank, Area, MaskFor, MaskForScene, clip_of};

use crate::background::hidden_rect;
use crate::edges::{clear_edges, draw_hull, lay_edges};
use crate::rows::fill;
use raster::Target;
use rect::Rect;
use scene::layout::DRAW_BYTES;

// The scene's picture under a mask, at every pixel of a. The background is filled only where the first draw is not seen to hide it.
pub fn paint_area(
    surface: &mut [u8],
    scratch: &mut [i32],
    scene: &[u8],
    mask: &[u8],
    width: usize,
    height: usize,
    count: usize,
    a: Rect,
)
    requires accepted_scene { AcceptedScene scene.now × (count ≡ count_of scene.now) }
    requires blank { Blank scratch.old }
    requires area { Area width height a surface.old × MaskForScene scene.now (height * width) mask.now }
    ensures scratch_unchanged { scratch.new ≡ scratch.old }
    ensures surface_after { surface.new ≡ overlay width height a (pixel_at scene.now (mask_at width mask.now)) surface.old }
{
    let target = Target {
        width,
        height,
        area: a,
    };
    let mut d = [0u8; DRAW_BYTES];
    let hidden = hidden_rect(scratch, scene, count, &mut d, width, height);
    raster::fill_around(
        surface,
        target,
        hidden,
        scene::header::background(scene).premultiplied(),
    );
    paint_draws(surface, scratch, scene, mask, count, &mut d, target);
}

// The first draws of a scene, so many, at every pixel of the target; d is a buffer for a draw. What it holds afterwards is free.
fn paint_draws(
    surface: &mut [u8],
    scratch: &mut [i32],
    scene: &[u8],
    mask: &[u8],
    count: usize,
    d: &mut [u8],
    target: Target,
)
    requires accepted_scene { AcceptedScene scene.now × ((count ≡ count_of scene.now) × (length d.old ≡ draw_bytes)) }
    requires blank { Blank scratch.old }
    requires part { Part target surface.old × MaskForScene scene.now (target.height * target.width) mask.now }
    ensures scratch_unchanged { scratch.new ≡ scratch.old }
    ensures surface_after { surface.new
        ≡ stepped target (unclamped_all (edition_of scene.now) (first_draws scene.now count) (mask_at target.width mask.now))
        surface.old }
{
    let edition = scene::header::edition(scene);
    for i in 0..count {
        scene::blocks::read_draw(scene, i, d);
        paint_draw(surface, scratch, mask, d, edition, target);
    }
}

// A draw of a scene of that edition, at every pixel of the target.
fn paint_draw(
    surface: &mut [u8],
    scratch: &mut [i32],
    mask: &[u8],
    d: &[u8],
    edition: u32,
    target: Target,
)
    requires d_len { (length d.now ≡ draw_bytes) × AcceptedDraw edition d.now }
    requires blank { Blank scratch.old }
    requires part { Part target surface.old × MaskFor (uses_mask d.now) (target.height * target.width) mask.now }
    ensures scratch_unchanged { scratch.new ≡ scratch.old }
    ensures surface_after { surface.new ≡ stepped target (unclamped_step edition d.now (mask_at target.width mask.now)) surface.old }
{
    if misses(d, edition, target) {
        return;
    }
    let n = lay_edges(scratch, d, edition);
    paint_box(surface, scratch, mask, n, d, target);
    clear_edges(scratch, n);
}

// Whether the control points of a draw tell that its box has no pixel in the target. They are not gone through where the target is the whole surface.
fn misses(d: &[u8], edition: u32, target: Target) -> bool
    requires d_len { (length d.now ≡ draw_bytes) × AcceptedDraw edition d.now }
    requires width_bound { (target.width ≤ 1024) × (target.height ≤ 1024) }
    ensures { result ≡ true → empty_of (meet_of target.area (box_of target.width target.height (draw_edges edition d.now))) ≡ true }
{
    let width = target.width;
    let height = target.height;
    let a = target.area;
    if a.x0 == 0 && a.y0 == 0 && a.x1 == width && a.y1 == height {
        return false;
    }
    let hull = draw_hull(d, edition, width, height);
    a.meet(hull).is_empty()
}

// A draw whose n edges lie in the scratch, at every pixel of the target: only the pixels of its box, inside the rectangle round its scissors, are gone
// through.
fn paint_box(
    surface: &mut [u8],
    scratch: &mut [i32],
    mask: &[u8],
    n: usize,
    d: &[u8],
    target: Target,
)
    requires d_len { (length d.now ≡ draw_bytes) × AcceptedFields d.now }
    requires outlined { Outlined scratch.old n × Closed (edges_of scratch.old n) }
    requires part { Part target surface.old × MaskFor (uses_mask d.now) (target.height * target.width) mask.now }
    ensures scratch_unchanged { scratch.new ≡ scratch.old }
    ensures surface_after { surface.new
        ≡ stepped target (unclamped_of (edges_of scratch.old n) d.now (mask_at target.width mask.now)) surface.old }
{
    let width = target.width;
    let height = target.height;
    let outer = outline::bounds::bounds(scratch, n, width, height).meet(clip(d));
    let b = target.area.meet(outer);
    if b.is_empty() {
        return;
    }
    let inner = Target {
        width,
        height,
        area: b,
    };
    fill(surface, scratch, mask, n, d, inner);
}

// The rectangle round a draw's scissors, or the largest surface where they are off.
fn clip(d: &[u8]) -> Rect
    requires { (length d.now ≡ draw_bytes) × AcceptedFields d.now }
    ensures { result ≡ clip_of d.now }
{
    if scene::fields::scissoring(d) {
        return coverage::clip::scissor_box(
            scene::fields::scissors(d),
            scene::fields::scissor_count(d),
        );
    }
    Rect {
        x0: 0,
        y0: 0,
        x1: 1024,
        y1: 1024,
    }
}
