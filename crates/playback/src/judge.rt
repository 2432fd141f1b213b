// Whether a whole replay is refused.
ghost use Rattle.std.specs.Prelude.{◌≡◌, ◌≤◌, length};
ghost use Rattle.codes.specs.Number.{number_told};
ghost use Rattle.playback.specs.Replay.{start_of, most_scenes, replay_code};

use codes::Code;

// The most scenes of a replay.
pub const MOST_SCENES: usize = 600;

// Too many scenes, or lengths that do not add up to the run's; then too few places for the answers.
pub fn judge(bytes: usize, lengths: &[u32], places: usize) -> Result<(), Code>
    ensures { number_told (λ code. code) result ≡ replay_code bytes lengths.now places }
{
    if MOST_SCENES < lengths.len() {
        return Err(Code::BadLength);
    }
    if sum(lengths) != bytes {
        return Err(Code::BadLength);
    }
    if places < lengths.len() * 7 {
        return Err(Code::OutOfMemory);
    }
    Ok(())
}

// The lengths together: 600 numbers of 32 bits do not wrap in 64.
fn sum(lengths: &[u32]) -> usize
    requires { length lengths.now ≤ most_scenes }
    ensures { result ≡ start_of lengths.now (length lengths.now) }
{
    let mut s = 0;
    for i in 0..lengths.len() {
        s += lengths[i] as usize;
    }
    s
}
