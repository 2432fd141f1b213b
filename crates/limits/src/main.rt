// Runs the renderer's calls that its arguments list, each on buffers that hold a pattern, and prints for each the answer's seven numbers
// and what the call leaves:
//
//     draw FILE SURFACE ROOM          a full drawing, on a surface of so many bytes with a working room of so many numbers
//     redraw OLD NEW SURFACE ROOM     a redraw, on a surface that shows the old scene where that can be drawn
//
// Kept: every byte or number is as before. Drawn: every byte is as after a full drawing on another pattern. Zero: every number is 0.
#![tactic(auto)]

mod arguments;
mod calls;
mod patterns;

use crate::arguments::read_call;
use crate::calls::Call;
use console::arguments::{Arguments, argument_count};
use console::errors::{Stop, finish};
use console::output::print;
use console::usage::Manual;
use std::process::ExitCode;

// The most words that a call has.
const WORDS: usize = 5;

const MANUAL: Manual = Manual {
    usage: "usage: limits (draw FILE SURFACE ROOM | redraw OLD NEW SURFACE ROOM)..\n",
    help: "Runs calls of the renderer, each on a surface of so many bytes with a working room of so many numbers, and prints for each the\n\
        seven numbers of its answer and what it leaves. It stops at what is no call.\n",
};

fn main(rt: HostRuntime) -> ExitCode {
    let outcome = run_calls(&rt);
    finish(&rt, outcome)
}

fn run_calls(rt: &HostRuntime) -> Result<(), Stop> {
    let count = argument_count(rt);
    MANUAL.judge_call(rt, 2 <= count)?;
    print(
        rt,
        "call FILES SURFACE ROOM: code draw scene x y width height, surface, room",
    );
    let mut i = 1;
    // One of no fixed length: where a call ends, the next one starts.
    while i < count {
        let words = Arguments::part(rt, i, WORDS.min(count - i))?;
        let mut old = Vec::new(rt.alloc());
        let mut new = Vec::new(rt.alloc());
        let call = read_call(rt, &words, 0, &mut old, &mut new)?;
        let end = call.end;
        lend(rt, &words, 0, call)?;
        i = i.saturating_add(end);
    }
    Ok(())
}

// The call, which starts at argument i, in places of the sizes that it gives.
fn lend(rt: &HostRuntime, arguments: &Arguments, i: usize, call: Call<'_>) -> Result<(), Stop> {
    let mut surface = vec![in rt.alloc(); 0u8; call.surface]?;
    let mut other = vec![in rt.alloc(); 0u8; call.surface]?;
    let mut scratch = vec![in rt.alloc(); 0i32; call.scratch]?;
    call.run(
        rt,
        arguments,
        i,
        surface.as_mut_slice(),
        other.as_mut_slice(),
        scratch.as_mut_slice(),
    );
    Ok(())
}
