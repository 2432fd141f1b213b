// Draws the scene file that its argument names with both engines, and prints
//
//     same                  no pixel differs
//     X Y                   the differing pixel with the least y·width + x
//     refused CODE DRAW     the scene is refused
//     limit                 the file is too long, or the picture too large for two of it
#![tactic(auto)]

use codes::ACCEPTED;
use console::arguments::{Arguments, argument_count};
use console::errors::{Stop, finish};
use console::files;
use console::numbers::Code;
use console::output::print;
use console::sizes::Size;
use console::usage::Manual;
use difference::Comparison;
use render::judge::SCRATCH_NUMBERS;
use std::process::ExitCode;

// The most bytes of each of the two pictures: 1,024 by 768 pixels.
const PICTURE_BYTES: usize = 3145728;

const MANUAL: Manual = Manual {
    usage: "usage: same FILE\n",
    help: "Draws a scene file with the quick and with the plain engine, and prints `same`, or X Y of the first pixel that differs.\n\
        A scene that is refused prints `refused CODE DRAW`, a file that is too long or a picture that is too large `limit`.\n",
};

fn main(rt: HostRuntime) -> ExitCode {
    finish(&rt, run(&rt))
}

fn run(rt: &HostRuntime) -> Result<(), Stop> {
    MANUAL.judge_call(rt, argument_count(rt) == 2)?;
    let arguments = Arguments::read(rt)?;
    let scene = files::read(rt, &arguments, 1)?.ok_or(Stop::TooLong)?;
    draw_both(rt, &scene)
}

// Both surfaces get the size that the scene asks for. Where it asks for none there is no surface: the rules come before it, and refuse the scene.
fn draw_both(rt: &HostRuntime, scene: &[u8]) -> Result<(), Stop> {
    let n = Size::of_scene(scene).map_or(0, Size::bytes);
    if PICTURE_BYTES < n {
        return refuse_large(rt, scene);
    }
    let mut first = vec![in rt.alloc(); 0u8; n]?;
    let mut second = vec![in rt.alloc(); 0u8; n]?;
    draw_quick(rt, scene, &mut first, &mut second);
    Ok(())
}

// A picture too large for two of it: the scene rules come first.
fn refuse_large(rt: &HostRuntime, scene: &[u8]) -> Result<(), Stop> {
    match scene::verdict::verdict(scene, false) {
        Ok(()) => Err(Stop::TooLong),
        Err(fault) => {
            print_refusal(rt, fault.code.number(), fault.draw);
            Ok(())
        }
    }
}

fn draw_quick(rt: &HostRuntime, scene: &[u8], first: &mut [u8], second: &mut [u8]) {
    let mut scratch = [0i32; SCRATCH_NUMBERS];
    let answer = render::draw_unmasked(scene, first, &mut scratch);
    if answer.code != ACCEPTED {
        print_refusal(rt, answer.code, answer.draw as usize);
        return;
    }
    draw_plainly(rt, scene, first, second, answer.width, answer.height);
}

fn draw_plainly(
    rt: &HostRuntime,
    scene: &[u8],
    first: &[u8],
    second: &mut [u8],
    width: u32,
    height: u32,
) {
    let mut scratch = [0i32; SCRATCH_NUMBERS];
    plain::draw_plain(scene, false, b"", second, &mut scratch);
    print_comparison(rt, difference::compare(width, height, first, second), width);
}

fn print_comparison(rt: &HostRuntime, comparison: Comparison, width: u32) {
    let least = comparison.least;
    if comparison.equal == 1 {
        print(rt, "same");
    } else if 0 < width {
        print(rt, format_args!("{} {}", least % width, least / width));
    }
}

fn print_refusal(rt: &HostRuntime, code: u32, draw: usize) {
    print(rt, format_args!("refused {} {draw}", Code(code)));
}
