// Explains a pixel of the scene file that its first argument names, under the mask file that its last argument names, if there is one: prints a line
// for each draw, and then the pixel.
#![tactic(auto)]

mod numbers;
mod printing;

use crate::numbers::coordinate;
use crate::printing::Question;
use console::arguments::{Arguments, argument_count};
use console::errors::{Stop, finish};
use console::files::{load, read};
use console::usage::Manual;
use std::process::ExitCode;

// The most bytes that are read of a mask: one more than the largest picture has pixels, so that a longer mask has a wrong length too.
const MASK_LIMIT: usize = 1048577;

const MANUAL: Manual = Manual {
    usage: "usage: explain SCENE X Y [MASK]\n",
    help: "Prints what each draw of a scene file does to a pixel, a line for each draw, and then the pixel. MASK is a file with a byte for\n\
        each pixel, row by row from the lowest. A scene that is refused prints `refused CODE DRAW offset BYTE` with the place in the\n\
        file, a file that is too long `limit`.\n",
};

fn main(rt: HostRuntime) -> ExitCode {
    let outcome = explain(&rt);
    finish(&rt, outcome)
}

fn explain(rt: &HostRuntime) -> Result<(), Stop> {
    let count = argument_count(rt);
    let masked = count == 5;
    MANUAL.judge_call(rt, masked || count == 4)?;
    let arguments = Arguments::read(rt)?;
    let x = coordinate(rt, &arguments, 2)?;
    let y = coordinate(rt, &arguments, 3)?;
    let scene = read(rt, &arguments, 1)?.ok_or(Stop::TooLong)?;
    let mut mask = vec![in rt.alloc(); 0u8; if masked { MASK_LIMIT } else { 0 }]?;
    let n = if masked {
        load(rt, &arguments, 4, &mut mask)?
    } else {
        0
    };
    let question = Question {
        scene: scene.as_slice(),
        masked,
        mask: &mask[..n],
        x,
        y,
    };
    question.answer(rt);
    Ok(())
}
