// The line of one draw.
ghost use Rattle.std.specs.Prelude.{◌≡◌, true, ◌*◌, ◌≤◌, ◌<◌, length};
ghost use Rattle.scene.specs.Layout.{draw_bytes};
ghost use Rattle.scene.specs.Header.{width_of, height_of, count_of};
ghost use Rattle.scene.specs.Fields.{uses_mask};
ghost use Rattle.scene.specs.Accepted.{AcceptedFields, AcceptedDraw, AcceptedScene};
ghost use Rattle.engine.specs.Rows.{MaskForScene};
ghost use Rattle.reason.specs.Explanations.{bare_line};
ghost use Rattle.reason.specs.Lines.{LineWith, SceneLine, byte_for, line_by};

use crate::paints::paint_at;
use crate::samples::{covered_samples, outside_scissors};
use crate::{COVERED, Line, NO_PIXEL, OUTSIDE, UNCOVERED};
use color::Pixel;
use scene::layout::DRAW_BYTES;

// The line of draw i of a scene that passes.
pub fn scene_line(s: &[u8], mask: &[u8], x: usize, y: usize, i: usize, before: Pixel) -> Line
    requires accepted_scene { AcceptedScene s.now × (i < count_of s.now) }
    requires x_bound { (x < width_of s.now) × (y < height_of s.now) }
    requires mask_for_scene { MaskForScene s.now (height_of s.now * width_of s.now) mask.now }
    ensures { SceneLine s.now mask.now x y i before result }
{
    let mut d = [0u8; DRAW_BYTES];
    scene::blocks::read_draw(s, i, &mut d);
    let m = mask_byte(&d, mask, y * scene::header::width(s) + x);
    draw_line(&d, scene::header::edition(s), m, x, y, before)
}

// m of a draw: the mask's byte at a place, or 255 where the draw does not ask for the mask.
fn mask_byte(d: &[u8], mask: &[u8], at: usize) -> u8
    requires { (length d.now ≡ draw_bytes) × (uses_mask d.now ≡ true → at < length mask.now) }
    ensures { result ≡ byte_for d.now mask.now at }
{
    if scene::fields::uses_mask(d) {
        mask[at]
    } else {
        255
    }
}

// The line of a draw, with its m: the scissors before all else.
fn draw_line(d: &[u8], edition: u32, m: u8, x: usize, y: usize, before: Pixel) -> Line
    requires d_len { (length d.now ≡ draw_bytes) × AcceptedDraw edition d.now }
    requires x_bound { (x < 1024) × (y < 1024) }
    ensures { LineWith edition d.now m x y before result }
{
    if outside_scissors(d, x, y) {
        return bare(OUTSIDE, before);
    }
    let k = covered_samples(d, edition, x, y);
    if k == 0 {
        return bare(UNCOVERED, before);
    }
    covered_line(d, k, m, x, y, before)
}

// The line of a draw that does not cover the pixel, which stays.
pub fn bare(kind: u32, before: Pixel) -> Line
    ensures { result ≡ bare_line kind before before }
{
    Line {
        kind,
        before,
        after: before,
        k: 0,
        masked: 0,
        mask: 0,
        paint: NO_PIXEL,
    }
}

// The line of a draw that covers k samples.
fn covered_line(d: &[u8], k: u8, m: u8, x: usize, y: usize, before: Pixel) -> Line
    requires d_len { (length d.now ≡ draw_bytes) × AcceptedFields d.now }
    requires k_bound { (k ≤ 16) × (x < 1024) × (y < 1024) }
    ensures { result ≡ line_by d.now k m x y before }
{
    let paint = paint_at(d, x, y);
    let mode = scene::fields::blend_mode(d);
    Line {
        kind: COVERED,
        before,
        after: blend::step::composite_pixel(mode, k, m, paint, before),
        k: k as u32,
        masked: u32::from(scene::fields::uses_mask(d)),
        mask: m as u32,
        paint,
    }
}
