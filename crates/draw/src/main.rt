// Draws the scene file that its argument names, and prints the picture.
#![tactic(auto)]

use codes::ACCEPTED;
use console::arguments::{Arguments, argument_count};
use console::errors::{Stop, finish};
use console::files;
use console::numbers::Code;
use console::output::print;
use console::pictures::print_picture;
use console::sizes::Size;
use console::usage::Manual;
use render::judge::SCRATCH_NUMBERS;
use std::process::ExitCode;

const MANUAL: Manual = Manual {
    usage: "usage: draw FILE\n",
    help: "Draws a scene file and prints the picture: its width and height, then a line for each row, from the top one down. A scene\n\
        that is refused prints `refused CODE DRAW`, a file that is too long `limit`.\n",
};

fn main(rt: HostRuntime) -> ExitCode {
    finish(&rt, run(&rt))
}

fn run(rt: &HostRuntime) -> Result<(), Stop> {
    MANUAL.judge_call(rt, argument_count(rt) == 2)?;
    let arguments = Arguments::read(rt)?;
    let scene = files::read(rt, &arguments, 1)?.ok_or(Stop::TooLong)?;
    draw(rt, &scene)
}

// The surface gets the size that the scene asks for. Where it asks for none there is no surface: the rules come before it, and refuse the scene.
fn draw(rt: &HostRuntime, scene: &[u8]) -> Result<(), Stop> {
    let size = Size::of_scene(scene);
    let mut surface = vec![in rt.alloc(); 0u8; size.map_or(0, Size::bytes)]?;
    let mut scratch = [0i32; SCRATCH_NUMBERS];
    let answer = render::draw_unmasked(scene, &mut surface, &mut scratch);
    if answer.code != ACCEPTED {
        let draw = answer.draw;
        print(rt, format_args!("refused {} {draw}", Code(answer.code)));
    } else if let Some(size) = size {
        print_picture(rt, &surface, size);
    }
    Ok(())
}
