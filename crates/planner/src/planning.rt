// A plan by itself.
ghost use Rattle.std.specs.Prelude.{◌≡◌, length};
ghost use Rattle.scene.specs.Layout.{no_draw};
ghost use Rattle.render.specs.Answers.{mask_of, refuse};
ghost use Rattle.planner.specs.Plannings.{Answered, surface_for, plan_refusal, plan_answer};

use crate::{PROPOSAL_NUMBERS, propose};
use codes::{ACCEPTED, OUT_OF_MEMORY};
use render::Refusal;
use render::judge::{SCRATCH_NUMBERS, judge_redraw};
use scene::layout::{BLOCK_BYTES, NO_DRAW};

// What a plan answers: why it is refused, as a redraw says it, or code 0 and how many rectangles were written.
#[repr(C)]
#[derive(Clone, Copy)]
pub struct Planning {
    pub code: u32,
    pub draw: u32,
    pub scene: u32,
    pub count: u32,
}

// Writes the planner's proposal for a redraw to a run that has place for 16 numbers; later places are not written.
pub fn plan(old: &[u8], new: &[u8], masked: bool, mask: &[u8], rectangles: &mut [i32]) -> Planning
    ensures { Answered old.now new.now (mask_of masked mask.now) rectangles.old rectangles.new result }
{
    let f = judge_plan(old, new, masked, mask, rectangles.len());
    if f.code != ACCEPTED {
        return answer(f, 0);
    }
    let n = propose(
        old,
        new,
        scene::header::width(new),
        scene::header::height(new),
        rectangles,
    );
    answer(f, n as u32)
}

// Whether a plan is refused: the scenes and their sizes, the mask, then the place.
fn judge_plan(old: &[u8], new: &[u8], masked: bool, mask: &[u8], places: usize) -> Refusal
    ensures { result ≡ plan_refusal old.now new.now (mask_of masked mask.now) places }
{
    let f = judge_redraw(old, new, masked, mask, surface_for(new), SCRATCH_NUMBERS);
    if f.code != ACCEPTED {
        return f;
    }
    if places < PROPOSAL_NUMBERS {
        return verdict(OUT_OF_MEMORY);
    }
    verdict(ACCEPTED)
}

// The bytes of the surface that the scene asks for, if it is long enough to say.
fn surface_for(new: &[u8]) -> usize
    ensures { result ≡ surface_for new.now }
{
    if new.len() < BLOCK_BYTES {
        return 0;
    }
    4 * (scene::header::width(new) * scene::header::height(new))
}

// A refusal that names no draw; none, where the call is accepted.
fn verdict(code: u32) -> Refusal
    ensures { result ≡ refuse code no_draw 0 }
{
    Refusal {
        code,
        draw: NO_DRAW as u32,
        scene: 0,
    }
}

fn answer(f: Refusal, count: u32) -> Planning
    ensures { result ≡ plan_answer f count }
{
    Planning {
        code: f.code,
        draw: f.draw,
        scene: f.scene,
        count,
    }
}
