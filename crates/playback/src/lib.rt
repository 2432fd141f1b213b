// A replay: scenes one behind another in one run, each redrawn from the one accepted last, or drawn in full while there is none.
#![tactic(auto)]

pub mod judge;
pub mod scenes;

ghost use Rattle.std.specs.Prelude.{◌≡◌, length};
ghost use Rattle.render.specs.Answers.{mask_of};
ghost use Rattle.playback.specs.Replay.{replay_answer, replay_surface, replay_scratch, replay_answers};

use crate::judge::judge;
use crate::scenes::play;
use codes::ACCEPTED;

// What a replay answers: its code, and the code that it notes, its own or else the first other than 0 of its scenes': numbers, since C takes them.
#[derive(Clone, Copy)]
pub struct Replayed {
    pub code: u32,
    pub first: u32,
}

// Where a scene lies in the run.
#[derive(Clone, Copy)]
pub struct Part {
    pub at: usize,
    pub end: usize,
}

// What is carried from scene to scene: where the one accepted last lies, and the first code other than 0.
#[derive(Clone, Copy)]
pub struct Carried {
    pub last: Option<Part>,
    pub first: u32,
}

// Replays the scenes of a run, by their lengths, with one mask for all or none. Seven numbers for each scene go to the answers.
pub fn replay(
    run: &[u8],
    lengths: &[u32],
    masked: bool,
    mask: &[u8],
    surface: &mut [u8],
    scratch: &mut [i32],
    answers: &mut [u32],
) -> Replayed
    ensures value { result
        ≡ replay_answer run.now lengths.now (mask_of masked mask.now)
        surface.old scratch.old (length answers.old) }
    ensures surface_after { surface.new
        ≡ replay_surface run.now lengths.now (mask_of masked mask.now)
        surface.old scratch.old (length answers.old) }
    ensures scratch_after { scratch.new
        ≡ replay_scratch run.now lengths.now (mask_of masked mask.now)
        surface.old scratch.old (length answers.old) }
    ensures answers_after { answers.new
        ≡ replay_answers run.now lengths.now (mask_of masked mask.now)
        surface.old scratch.old answers.old }
{
    match judge(run.len(), lengths, answers.len()) {
        Err(code) => Replayed {
            code: code.number(),
            first: code.number(),
        },
        Ok(()) => Replayed {
            code: ACCEPTED,
            first: play(run, lengths, masked, mask, surface, scratch, answers),
        },
    }
}
