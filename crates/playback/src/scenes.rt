// The scenes of a replay, one by one.
ghost use Rattle.std.specs.Prelude.{◌≡◌, ◌≤◌, ◌*◌, length};
ghost use Rattle.lists.specs.Lists.{over};
ghost use Rattle.context.specs.Context.{first_code};
ghost use Rattle.render.specs.Answers.{mask_of};
ghost use Rattle.playback.specs.Replay.{start_of, next_answer, next_surface, next_scratch, end_of, numbers_of, numbers_all, codes_of};
ghost use Rattle.playback.specs.Carrying.{scene_of, shown_of, carried_on, Fits, Lies};

use crate::{Carried, Part};
use codes::ACCEPTED;
use render::Answer;

// All scenes. Returns the first code other than 0.
pub fn play(
    run: &[u8],
    lengths: &[u32],
    masked: bool,
    mask: &[u8],
    surface: &mut [u8],
    scratch: &mut [i32],
    answers: &mut [u32],
) -> u32
    requires lengths_value { start_of lengths.now (length lengths.now) ≡ length run.now }
    requires lengths_in_bounds { length lengths.now * 7 ≤ length answers.old }
    ensures value { result
        ≡ first_code (codes_of (end_of run.now lengths.now (mask_of masked mask.now)
        surface.old scratch.old).answers) }
    ensures surface_after { surface.new
        ≡ (end_of run.now lengths.now (mask_of masked mask.now) surface.old scratch.old).surface }
    ensures scratch_after { scratch.new
        ≡ (end_of run.now lengths.now (mask_of masked mask.now) surface.old scratch.old).scratch }
    ensures answers_after { answers.new
        ≡ over (numbers_all (end_of run.now lengths.now (mask_of masked mask.now)
        surface.old scratch.old).answers) answers.old }
{
    let mut carried = Carried {
        last: None,
        first: ACCEPTED,
    };
    let mut at = 0;
    for i in 0..lengths.len() {
        let end = at + lengths[i] as usize;
        let from = i * 7;
        let to = from + 7;
        carried = turn(
            run,
            masked,
            mask,
            carried,
            Part { at, end },
            surface,
            scratch,
            &mut answers[from..to],
        );
        at = end;
    }
    carried.first
}

// One scene: its call, its answer's place, and what is carried on.
fn turn(
    run: &[u8],
    masked: bool,
    mask: &[u8],
    carried: Carried,
    part: Part,
    surface: &mut [u8],
    scratch: &mut [i32],
    answers: &mut [u32],
) -> Carried
    requires { (Fits (mask_of masked mask.now) run.now carried.last × Lies run.now part) × (length answers.old ≡ 7) }
    ensures value { result
        ≡ carried_on carried part (next_answer (mask_of masked mask.now) (shown_of run.now carried.last) (scene_of run.now part)
        (length surface.old) (length scratch.old)).code }
    ensures surface_after { surface.new
        ≡ next_surface (mask_of masked mask.now) (shown_of run.now carried.last) (scene_of run.now part)
        surface.old (length scratch.old) }
    ensures scratch_after { scratch.new
        ≡ next_scratch (mask_of masked mask.now) (shown_of run.now carried.last) (scene_of run.now part)
        (length surface.old) scratch.old }
    ensures answers_after { answers.new
        ≡ numbers_of (next_answer (mask_of masked mask.now) (shown_of run.now carried.last) (scene_of run.now part)
        (length surface.old) (length scratch.old)) }
{
    let answer = show(run, masked, mask, carried.last, part, surface, scratch);
    answers.copy_from_slice(&numbers(answer));
    carried.after(part, answer.code)
}

impl Carried {
    // What is carried on after a scene's code.
    fn after(self, part: Part, code: u32) -> Carried
        ensures { result ≡ carried_on self part code }
    {
        if code == ACCEPTED {
            Carried {
                last: Some(part),
                first: self.first,
            }
        } else {
            Carried {
                last: self.last,
                first: context::kept(self.first, code),
            }
        }
    }
}

impl Part {
    // The scene itself.
    fn of(self, run: &[u8]) -> &[u8]
        requires { Lies run.now self }
        ensures { result.now ≡ scene_of run.now self }
    {
        &run[self.at..self.end]
    }
}

// The scene of a part: redrawn from the one accepted last, which is not judged again, or drawn in full.
fn show(
    run: &[u8],
    masked: bool,
    mask: &[u8],
    last: Option<Part>,
    part: Part,
    surface: &mut [u8],
    scratch: &mut [i32],
) -> Answer
    requires { Fits (mask_of masked mask.now) run.now last × Lies run.now part }
    ensures value { result
        ≡ next_answer (mask_of masked mask.now) (shown_of run.now last) (scene_of run.now part)
        (length surface.old) (length scratch.old) }
    ensures surface_after { surface.new
        ≡ next_surface (mask_of masked mask.now) (shown_of run.now last) (scene_of run.now part)
        surface.old (length scratch.old) }
    ensures scratch_after { scratch.new
        ≡ next_scratch (mask_of masked mask.now) (shown_of run.now last) (scene_of run.now part)
        (length surface.old) scratch.old }
{
    match last {
        Some(old) => render::redraw_from(old.of(run), part.of(run), masked, mask, surface, scratch),
        None => render::draw(part.of(run), masked, mask, surface, scratch),
    }
}

// The seven numbers of an answer.
fn numbers(a: Answer) -> [u32; 7]
    ensures { result ≡ numbers_of a }
{
    [a.code, a.draw, a.scene, a.x, a.y, a.width, a.height]
}
