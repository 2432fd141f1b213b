// Redrawing by several rectangles that anyone proposes.
#![tactic(auto)]

pub mod accept;
pub mod cover;
pub mod painting;
pub mod proposal;

ghost use Rattle.std.specs.Prelude.{◌≡◌, length};
ghost use Rattle.scene.specs.Layout.{no_draw};
ghost use Rattle.render.specs.Answers.{mask_of, refuse};
ghost use Rattle.regions.specs.Answers.{regions_refusal, regions_answer, regions_surface, regions_scratch};

use crate::accept::accept;
use crate::painting::{paint_regions, round};
use codes::{ACCEPTED, ILLEGAL_ARGUMENT};
use render::{Answer, Refusal};
use scene::layout::NO_DRAW;

// Redraws, in the rectangles, from the old scene to the new, with one mask for both or none. A surface that held the old picture then holds the new
// one. A rejected proposal changes nothing.
pub fn redraw_regions(
    old: &[u8],
    new: &[u8],
    masked: bool,
    mask: &[u8],
    rectangles: &[i32],
    surface: &mut [u8],
    scratch: &mut [i32],
) -> Answer
    ensures value { result
        ≡ regions_answer old.now new.now (mask_of masked mask.now) rectangles.now
        (length surface.old) (length scratch.old) }
    ensures surface_after { surface.new
        ≡ regions_surface old.now new.now (mask_of masked mask.now) rectangles.now
        surface.old (length scratch.old) }
    ensures scratch_after { scratch.new
        ≡ regions_scratch old.now new.now (mask_of masked mask.now) rectangles.now
        (length surface.old) scratch.old }
{
    let f = judge_regions(
        old,
        new,
        masked,
        mask,
        rectangles,
        surface.len(),
        scratch.len(),
    );
    if f.code != ACCEPTED {
        return render::refused(f);
    }
    let width = scene::header::width(new);
    let height = scene::header::height(new);
    let m = render::taken(masked, mask.len());
    engine::edges::clear(scratch);
    paint_regions(
        surface,
        scratch,
        new,
        &mask[0..m],
        width,
        height,
        rectangles,
    );
    render::accepted(round(rectangles))
}

// Whether such a call is refused: what a redraw asks for, then the proposal.
pub fn judge_regions(
    old: &[u8],
    new: &[u8],
    masked: bool,
    mask: &[u8],
    rectangles: &[i32],
    surface: usize,
    scratch: usize,
) -> Refusal
    ensures { result ≡ regions_refusal old.now new.now (mask_of masked mask.now) rectangles.now surface scratch }
{
    let f = render::judge::judge_redraw(old, new, masked, mask, surface, scratch);
    if f.code != ACCEPTED {
        return f;
    }
    if accept(
        rectangles,
        old,
        new,
        scene::header::width(new),
        scene::header::height(new),
    ) {
        return verdict(ACCEPTED);
    }
    verdict(ILLEGAL_ARGUMENT)
}

// A refusal that names no draw; none, where the call is accepted.
fn verdict(code: u32) -> Refusal
    ensures { result ≡ refuse code no_draw 0 }
{
    Refusal {
        code,
        draw: NO_DRAW as u32,
        scene: 0,
    }
}
