// Whether a call is refused: the scenes, then their sizes, then what is lent.
ghost use Rattle.std.specs.Prelude.{◌≡◌, ◌≤◌, ◌<◌, length};
ghost use Rattle.scene.specs.Layout.{block_bytes, no_draw};
ghost use Rattle.render.specs.Answers.{mask_of, mask_wrong, refuse, scene_refusal, lent_refusal, size_refusal};
ghost use Rattle.render.specs.Answers.{draw_refusal, redraw_refusal, Accepted};

use crate::Refusal;
use codes::{ACCEPTED, ILLEGAL_ARGUMENT, OUT_OF_MEMORY, UNSUPPORTED_IMAGE_FORMAT};
use scene::layout::NO_DRAW;

// Enough scratch.
pub const SCRATCH_NUMBERS: usize = 12300;

// A full drawing, with a mask or none, on a surface of that many bytes with a scratch of that many numbers.
pub fn judge_draw(s: &[u8], masked: bool, mask: &[u8], surface: usize, scratch: usize) -> Refusal
    ensures { result ≡ draw_refusal s.now (mask_of masked mask.now) surface scratch }
{
    let broken = judge_scene(masked, s, 0);
    if broken.code != ACCEPTED {
        return broken;
    }
    judge_lent(
        scene::header::width(s),
        scene::header::height(s),
        masked,
        mask,
        surface,
        scratch,
    )
}

// A redraw.
pub fn judge_redraw(
    old: &[u8],
    new: &[u8],
    masked: bool,
    mask: &[u8],
    surface: usize,
    scratch: usize,
) -> Refusal
    ensures { result ≡ redraw_refusal old.now new.now (mask_of masked mask.now) surface scratch }
{
    let old_broken = judge_scene(masked, old, 0);
    if old_broken.code != ACCEPTED {
        return old_broken;
    }
    judge_redraw_from(old, new, masked, mask, surface, scratch)
}

// A redraw whose old scene was judged before.
pub fn judge_redraw_from(
    old: &[u8],
    new: &[u8],
    masked: bool,
    mask: &[u8],
    surface: usize,
    scratch: usize,
) -> Refusal
    requires { Accepted (mask_of masked mask.now) old.now }
    ensures { result ≡ redraw_refusal old.now new.now (mask_of masked mask.now) surface scratch }
{
    let new_broken = judge_scene(masked, new, 1);
    if new_broken.code != ACCEPTED {
        return new_broken;
    }
    let unequal = judge_sizes(old, new);
    if unequal.code != ACCEPTED {
        return unequal;
    }
    judge_lent(
        scene::header::width(new),
        scene::header::height(new),
        masked,
        mask,
        surface,
        scratch,
    )
}

// The scene with that number in the call.
pub fn judge_scene(masked: bool, s: &[u8], number: u32) -> Refusal
    ensures { result ≡ scene_refusal masked s.now number }
{
    match scene::verdict::verdict(s, masked) {
        Ok(()) => refusal(ACCEPTED, 0),
        Err(f) => Refusal {
            code: f.code.number(),
            draw: f.draw as u32,
            scene: number,
        },
    }
}

// Surface, mask and scratch, for a picture of that size.
fn judge_lent(
    width: usize,
    height: usize,
    masked: bool,
    mask: &[u8],
    surface: usize,
    scratch: usize,
) -> Refusal
    requires { (width < 65536) × (height < 65536) }
    ensures { result ≡ lent_refusal width height (mask_of masked mask.now) surface scratch }
{
    let pixels = width * height;
    if surface != 4 * pixels {
        return refusal(UNSUPPORTED_IMAGE_FORMAT, 0);
    }
    if mask_wrong(masked, mask, pixels) {
        return refusal(UNSUPPORTED_IMAGE_FORMAT, 0);
    }
    if scratch < SCRATCH_NUMBERS {
        return refusal(OUT_OF_MEMORY, 0);
    }
    refusal(ACCEPTED, 0)
}

// Whether a mask is lent that has not a byte for each pixel.
pub fn mask_wrong(masked: bool, mask: &[u8], pixels: usize) -> bool
    ensures { result ≡ mask_wrong (mask_of masked mask.now) pixels }
{
    masked && mask.len() != pixels
}

// Two scenes of one size.
fn judge_sizes(old: &[u8], new: &[u8]) -> Refusal
    requires { (block_bytes ≤ length old.now) × (block_bytes ≤ length new.now) }
    ensures { result ≡ size_refusal old.now new.now }
{
    if scene::header::width(old) != scene::header::width(new) {
        return refusal(ILLEGAL_ARGUMENT, 1);
    }
    if scene::header::height(old) != scene::header::height(new) {
        return refusal(ILLEGAL_ARGUMENT, 1);
    }
    refusal(ACCEPTED, 0)
}

// A refusal that names no draw; none, where the call is accepted.
fn refusal(code: u32, scene: u32) -> Refusal
    ensures { result ≡ refuse code no_draw scene }
{
    Refusal {
        code,
        draw: NO_DRAW as u32,
        scene,
    }
}
