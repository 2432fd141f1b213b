// An accepted proposal on the surface: the new picture in each rectangle, and the least rectangle round them.
ghost use Rattle.std.specs.Prelude.{◌≡◌, ◌*◌, ◌≤◌, length};
ghost use Rattle.rect.specs.Rects.{On};
ghost use Rattle.scene.specs.Accepted.{AcceptedScene};
ghost use Rattle.engine.specs.Picture.{pixel_at, mask_at};
ghost use Rattle.engine.specs.Rows.{Blank, MaskForScene};
ghost use Rattle.regions.specs.Pixels.{overlays};
ghost use Rattle.regions.specs.Proposals.{proposed, round_of};
ghost use Rattle.regions.specs.Runs.{AllOn};

use crate::proposal::rect_at;
use rect::Rect;

// The scene's picture under a mask, at every pixel of the rectangles, which lie in the surface.
pub fn paint_regions(
    surface: &mut [u8],
    scratch: &mut [i32],
    scene: &[u8],
    mask: &[u8],
    width: usize,
    height: usize,
    rectangles: &[i32],
)
    requires accepted_scene { AcceptedScene scene.now × Blank scratch.old }
    requires surface_len { (length surface.old ≡ height * (width * 4)) × ((width ≤ 1024) × (height ≤ 1024)) }
    requires mask_for_scene { MaskForScene scene.now (height * width) mask.now }
    requires all_on { AllOn width height rectangles.now }
    ensures scratch_unchanged { scratch.new ≡ scratch.old }
    ensures surface_after { surface.new
        ≡ overlays width height (proposed rectangles.now) (pixel_at scene.now (mask_at width mask.now)) surface.old }
{
    let n = rectangles.len() / 4;
    let count = scene::header::count(scene);
    for k in 0..n {
        let a = rect_at(rectangles, k);
        engine::draws::paint_area(surface, scratch, scene, mask, width, height, count, a);
    }
}

// The least rectangle round rectangles that lie in the largest surface.
pub fn round(rectangles: &[i32]) -> Rect
    requires { AllOn 1024 1024 rectangles.now }
    ensures { (result ≡ round_of rectangles.now) × On 1024 1024 result }
{
    let n = rectangles.len() / 4;
    let mut a = Rect::EMPTY;
    for k in 0..n {
        a = a.join(rect_at(rectangles, k));
    }
    a
}
