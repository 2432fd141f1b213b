// Draws the first scene file in full, redraws to the second, and prints the redrawn area and the picture.
#![tactic(auto)]

use codes::ACCEPTED;
use console::arguments::{Arguments, argument_count};
use console::errors::{Stop, finish};
use console::files;
use console::numbers::Code;
use console::output::print;
use console::pictures::print_picture;
use console::sizes::Size;
use console::usage::Manual;
use render::judge::{SCRATCH_NUMBERS, judge_redraw};
use render::{Answer, Refusal};
use std::process::ExitCode;

const MANUAL: Manual = Manual {
    usage: "usage: redraw OLD NEW\n",
    help: "Draws the scene file OLD, redraws to NEW, and prints the redrawn area as X Y WIDTH HEIGHT, then the picture as draw does.\n\
        A redraw that is refused prints `refused CODE DRAW SCENE`, a file that is too long `limit`.\n",
};

fn main(rt: HostRuntime) -> ExitCode {
    finish(&rt, run(&rt))
}

// Where a file cannot be read it does not matter how long the other is.
fn run(rt: &HostRuntime) -> Result<(), Stop> {
    MANUAL.judge_call(rt, argument_count(rt) == 3)?;
    let arguments = Arguments::read(rt)?;
    let old = files::read(rt, &arguments, 1)?;
    let new = files::read(rt, &arguments, 2)?;
    redraw(rt, &old.ok_or(Stop::TooLong)?, &new.ok_or(Stop::TooLong)?)
}

// The surface gets the size that the old scene asks for. Where it asks for none there is no surface: the rules come before it, and refuse the redraw.
// Both scenes are judged first, so that nothing is drawn for a redraw that is refused.
fn redraw(rt: &HostRuntime, old: &[u8], new: &[u8]) -> Result<(), Stop> {
    let size = Size::of_scene(old);
    let mut surface = vec![in rt.alloc(); 0u8; size.map_or(0, Size::bytes)]?;
    let refusal = judge_redraw(old, new, false, b"", surface.len(), SCRATCH_NUMBERS);
    if refusal.code != ACCEPTED {
        print_refusal(rt, refusal);
    } else if let Some(size) = size {
        print_area(rt, draw_and_redraw(old, new, &mut surface));
        print_picture(rt, &surface, size);
    }
    Ok(())
}

fn draw_and_redraw(old: &[u8], new: &[u8], surface: &mut [u8]) -> Answer {
    let mut scratch = [0i32; SCRATCH_NUMBERS];
    render::draw_unmasked(old, surface, &mut scratch);
    render::redraw_unmasked(old, new, surface, &mut scratch)
}

fn print_refusal(rt: &HostRuntime, refusal: Refusal) {
    let Refusal { code, draw, scene } = refusal;
    print(rt, format_args!("refused {} {draw} {scene}", Code(code)));
}

fn print_area(rt: &HostRuntime, area: Answer) {
    let Answer {
        x,
        y,
        width,
        height,
        ..
    } = area;
    print(rt, format_args!("{x} {y} {width} {height}"));
}
