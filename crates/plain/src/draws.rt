// The draws of a scene, one after the other, each at every pixel of the surface. The scratch is zero before and after each draw.
ghost use Rattle.std.specs.Prelude.{◌≡◌, ◌*◌, ◌≤◌, length};
ghost use Rattle.raster.specs.Surface.{raster};
ghost use Rattle.path.specs.Stored.{edges_of};
ghost use Rattle.coverage.specs.Scanline.{Outlined};
ghost use Rattle.scene.specs.Layout.{draw_bytes};
ghost use Rattle.scene.specs.Header.{count_of, edition_of};
ghost use Rattle.scene.specs.Fields.{uses_mask};
ghost use Rattle.scene.specs.Accepted.{AcceptedFields, AcceptedDraw, AcceptedScene};
ghost use Rattle.engine.specs.Picture.{step_of, draw_step, draw_all, first_draws, pixel_at, mask_at};
ghost use Rattle.engine.specs.Rows.{Blank, MaskFor, MaskForScene};
ghost use Rattle.plain.specs.Asked.{pixelwise};

use crate::pixels::LaidDraw;
use engine::Brush;
use engine::decode::{shade, style};
use engine::edges::{clear_edges, lay_edges};
use paint::build::RAMP_NUMBERS;
use scene::layout::DRAW_BYTES;

// The scene's picture under a mask, of width by height pixels: the background, and then its n draws.
pub fn draw_scene(
    surface: &mut [u8],
    scratch: &mut [i32],
    scene: &[u8],
    mask: &[u8],
    width: usize,
    height: usize,
    n: usize,
)
    requires accepted_scene { AcceptedScene scene.now × (n ≡ count_of scene.now) }
    requires blank { Blank scratch.old }
    requires surface_len { (length surface.old ≡ height * width * 4) × (width ≤ 1024) × (height ≤ 1024) }
    requires mask_for_scene { MaskForScene scene.now (height * width) mask.now }
    ensures scratch_unchanged { scratch.new ≡ scratch.old }
    ensures surface_after { surface.new ≡ raster width height (pixel_at scene.now (mask_at width mask.now)) }
{
    raster::fill_row(
        surface,
        height * width,
        scene::header::background(scene).premultiplied(),
    );
    let mut d = [0u8; DRAW_BYTES];
    draw_first(surface, scratch, scene, mask, &mut d, width, height, n);
}

// The first n draws of a scene; d is a buffer for a draw. What it holds afterwards is free.
fn draw_first(
    surface: &mut [u8],
    scratch: &mut [i32],
    scene: &[u8],
    mask: &[u8],
    d: &mut [u8],
    width: usize,
    height: usize,
    n: usize,
)
    requires accepted_scene { AcceptedScene scene.now × ((n ≡ count_of scene.now) × (length d.old ≡ draw_bytes)) }
    requires blank { Blank scratch.old }
    requires surface_len { (length surface.old ≡ height * width * 4) × (width ≤ 1024) × (height ≤ 1024) }
    requires mask_for_scene { MaskForScene scene.now (height * width) mask.now }
    ensures scratch_unchanged { scratch.new ≡ scratch.old }
    ensures surface_after { surface.new
        ≡ pixelwise width height (draw_all (edition_of scene.now) (first_draws scene.now n) (mask_at width mask.now))
        surface.old }
{
    let edition = scene::header::edition(scene);
    for i in 0..n {
        scene::blocks::read_draw(scene, i, d);
        draw_one(surface, scratch, mask, d, edition, width, height);
    }
}

// A draw of a scene of that edition.
fn draw_one(
    surface: &mut [u8],
    scratch: &mut [i32],
    mask: &[u8],
    d: &[u8],
    edition: u32,
    width: usize,
    height: usize,
)
    requires d_len { (length d.now ≡ draw_bytes) × AcceptedDraw edition d.now }
    requires blank { Blank scratch.old }
    requires surface_len { (length surface.old ≡ height * width * 4) × (width ≤ 1024) × (height ≤ 1024) }
    requires mask_for { MaskFor (uses_mask d.now) (height * width) mask.now }
    ensures scratch_unchanged { scratch.new ≡ scratch.old }
    ensures surface_after { surface.new ≡ pixelwise width height (draw_step edition d.now (mask_at width mask.now)) surface.old }
{
    let n = lay_edges(scratch, d, edition);
    draw_laid(surface, scratch, mask, n, d, width, height);
    clear_edges(scratch, n);
}

// A draw whose n edges lie in the scratch.
fn draw_laid<'a>(
    surface: &mut [u8],
    scratch: &'a [i32],
    mask: &'a [u8],
    n: usize,
    d: &'a [u8],
    width: usize,
    height: usize,
)
    requires d_len { (length d.now ≡ draw_bytes) × AcceptedFields d.now }
    requires outlined { Outlined scratch.now n }
    requires surface_len { (length surface.old ≡ height * width * 4) × (width ≤ 1024) × (height ≤ 1024) }
    requires mask_for { MaskFor (uses_mask d.now) (height * width) mask.now }
    ensures { surface.new
        ≡ pixelwise width height (step_of (edges_of scratch.now n) d.now (mask_at width mask.now)) surface.old }
{
    let mut ramp = [0u32; RAMP_NUMBERS];
    let shade = shade(d, &mut ramp);
    let brush = Brush {
        style: style(d, n, shade),
        ramp: &ramp,
        scissors: scene::fields::scissors(d),
        mask,
    };
    let draw = LaidDraw { brush, scratch };
    draw.draw(surface, width, height);
}
