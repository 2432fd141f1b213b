// Prints the rectangles that the planner proposes for a redraw from the first scene file to the second.
#![tactic(auto)]

use codes::ACCEPTED;
use console::arguments::{Arguments, argument_count};
use console::errors::{Stop, finish};
use console::files;
use console::numbers::Code;
use console::output::print;
use console::usage::Manual;
use planner::PROPOSAL_NUMBERS;
use planner::planning::{Planning, plan};
use regions::proposal::size;
use std::process::ExitCode;

const MANUAL: Manual = Manual {
    usage: "usage: plan OLD NEW\n",
    help: "Prints how many rectangles the planner proposes for a redraw from the scene file OLD to NEW, then each as X Y WIDTH HEIGHT.\n\
        A redraw that is refused prints `refused CODE DRAW SCENE`, a file that is too long `limit`.\n",
};

fn main(rt: HostRuntime) -> ExitCode {
    finish(&rt, run(&rt))
}

// Where a file cannot be read it does not matter how long the other is.
fn run(rt: &HostRuntime) -> Result<(), Stop> {
    MANUAL.judge_call(rt, argument_count(rt) == 3)?;
    let arguments = Arguments::read(rt)?;
    let old = files::read(rt, &arguments, 1)?;
    let new = files::read(rt, &arguments, 2)?;
    print_plan(rt, &old.ok_or(Stop::TooLong)?, &new.ok_or(Stop::TooLong)?);
    Ok(())
}

fn print_plan(rt: &HostRuntime, old: &[u8], new: &[u8]) {
    let mut rectangles = [0i32; PROPOSAL_NUMBERS];
    let answer = plan(old, new, false, b"", &mut rectangles);
    let Planning {
        code,
        draw,
        scene,
        count,
    } = answer;
    if code != ACCEPTED {
        print(rt, format_args!("refused {} {draw} {scene}", Code(code)));
        return;
    }
    print(rt, count);
    for rectangle in rectangles.chunks_exact(4).take(count as usize) {
        print_rectangle(rt, rectangle);
    }
}

fn print_rectangle(rt: &HostRuntime, rectangle: &[i32]) {
    if let [x, y, width, height] = rectangle {
        print(
            rt,
            format_args!(
                "{} {} {} {}",
                size(*x),
                size(*y),
                size(*width),
                size(*height)
            ),
        );
    }
}
