// Compares the two pictures that its arguments name, as `draw` prints them:
//
//     equal 0 0 0 0 0 0 0                        no pixel differs
//     differ COUNT X Y W H LARGEST LEAST         how many do, the smallest rectangle round them, the largest difference, the least number
//     refused CODE                               a picture has a size that no picture has, or the two have different ones
//
// A text that is not a picture's is told on standard error, by its file and line. Both are read row by row, so no picture is too large.
#![tactic(auto)]

mod files;
mod texts;

ghost use Rattle.std.specs.Prelude.{◌≤◌, IsOk};

use crate::files::Picture;
use codes::Code;
use console::arguments::{Arguments, argument_count};
use console::errors::{Stop, finish};
use console::output::told;
use console::usage::Manual;
use difference::{Comparison, Found};
use std::process::ExitCode;

// A picture's size as its first line has it.
#[derive(Clone, Copy, PartialEq, Eq)]
pub struct Size {
    pub width: u32,
    pub height: u32,
}

const MANUAL: Manual = Manual {
    usage: "usage: compare PICTURE PICTURE\n",
    help: "Compares two pictures as draw prints them, and prints `equal 0 0 0 0 0 0 0`, or `differ` and how many pixels do, the smallest\n\
        rectangle round them as X Y WIDTH HEIGHT, the largest difference and the least number of a pixel that differs. Pictures of\n\
        different sizes, or of none that a picture has, print `refused CODE`.\n",
};

fn main(rt: HostRuntime) -> ExitCode {
    let outcome = compare(&rt);
    finish(&rt, outcome)
}

fn compare(rt: &HostRuntime) -> Result<(), Stop> {
    MANUAL.judge_call(rt, argument_count(rt) == 3)?;
    let arguments = Arguments::read(rt)?;
    let mut first = Picture::open(rt, &arguments, 1)?;
    let mut second = Picture::open(rt, &arguments, 2)?;
    compare_sizes(rt, &mut first, &mut second)
}

// The sizes are judged before any row is read.
fn compare_sizes(
    rt: &HostRuntime,
    first: &mut Picture<'_>,
    second: &mut Picture<'_>,
) -> Result<(), Stop> {
    let a = first.read_size(rt)?;
    let b = second.read_size(rt)?;
    if let Err(code) = judge(a, b) {
        print_refusal(rt, code);
        return Ok(());
    }
    compare_rows(rt, first, second, a.width as usize, a.height as usize)
}

// A size that no picture has, then two that differ.
fn judge(a: Size, b: Size) -> Result<(), Code>
    ensures { IsOk result → (a.width ≤ 1024) × (a.height ≤ 1024) }
{
    if !difference::is_allowed(a.width, a.height) || !difference::is_allowed(b.width, b.height) {
        return Err(Code::IllegalArgument);
    }
    if a != b {
        return Err(Code::UnsupportedImageFormat);
    }
    Ok(())
}

// From the top row, on line 2, down. Both must end behind the last.
fn compare_rows(
    rt: &HostRuntime,
    first: &mut Picture<'_>,
    second: &mut Picture<'_>,
    width: usize,
    height: usize,
) -> Result<(), Stop>
    requires { (width ≤ 1024) × (height ≤ 1024) }
{
    let mut found = Found::nothing();
    for i in 0..height {
        let a = first.read_row(rt, i + 2, width)?;
        let b = second.read_row(rt, i + 2, width)?;
        found = found.with_row(a.as_slice(), b.as_slice(), width, height - 1 - i);
    }
    first.end(rt, height + 2)?;
    second.end(rt, height + 2)?;
    print_comparison(rt, difference::answer(found));
    Ok(())
}

fn print_refusal(rt: &HostRuntime, code: Code) {
    told(rt, println!(rt; "refused {:04x}", code.number()));
}

fn print_comparison(rt: &HostRuntime, c: Comparison) {
    let verdict = if c.equal == 1 { "equal" } else { "differ" };
    told(
        rt,
        println!(rt;
            "{verdict} {} {} {} {} {} {} {}",
            c.count, c.x, c.y, c.width, c.height, c.largest, c.least
        ),
    );
}
