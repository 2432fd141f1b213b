// Replays the scene files that its arguments name, one after the other, and prints
//
//     code C                          the code of the whole call
//     CODE DRAW SCENE X Y W H         for each scene, what its call answered
//     context C                       the first code other than 0, as a context keeps it
//     last I                          the number, from 0, of the scene accepted last, if there is one; then the picture
//     limit                           in place of all: the files are too long together
//
// The surface has the size of the first scene that passes the scene rules. No mask is lent.
#![tactic(auto)]

ghost use Rattle.std.specs.Prelude.{IfSome};
ghost use Rattle.console.specs.Sizes.{Allowed};

use codes::ACCEPTED;
use console::arguments::{Arguments, argument_count};
use console::errors::{Stop, finish};
use console::files;
use console::numbers::Code;
use console::output::print;
use console::pictures::print_picture;
use console::sizes::Size;
use console::usage::Manual;
use render::judge::SCRATCH_NUMBERS;
use std::process::ExitCode;

// The most bytes that the files may have together.
const RUN_LIMIT: usize = 2097152;

// One scene more than a replay takes, so that too many are refused by its rules.
const SCENES: usize = 601;

// The numbers of an answer.
const ANSWER_NUMBERS: usize = 7;

const MANUAL: Manual = Manual {
    usage: "usage: replay SCENE ..\n",
    help: "Shows scene files one after the other in one call, and prints `code C` for the call, CODE DRAW SCENE X Y WIDTH HEIGHT for each\n\
        scene, `context C` with the first code that is not 0, and `last I` and the picture if a scene was accepted. Files that are too\n\
        long together print `limit`.\n",
};

fn main(rt: HostRuntime) -> ExitCode {
    finish(&rt, run(&rt))
}

// The files are read one behind the other.
fn run(rt: &HostRuntime) -> Result<(), Stop> {
    MANUAL.judge_call(rt, 2 <= argument_count(rt))?;
    let arguments = Arguments::read(rt)?;
    let mut run = vec![in rt.alloc(); 0u8; RUN_LIMIT + 1]?;
    let mut lengths = Vec::new(rt.alloc());
    let scenes = load_all(rt, &arguments, &mut run, &mut lengths)?;
    replay(rt, scenes, &lengths)
}

// The files, one behind the other at the start of the run, and their lengths.
fn load_all<'a>(
    rt: &HostRuntime,
    arguments: &Arguments,
    run: &'a mut [u8],
    lengths: &mut Vec<u32>,
) -> Result<&'a [u8], Stop> {
    let mut end = 0;
    for i in 1..arguments.len().min(SCENES + 1) {
        let Some(rest) = run.get_mut(end..) else {
            return Err(Stop::TooLong);
        };
        let read = files::load(rt, arguments, i, rest)?;
        lengths.push(u32::try_from(read).unwrap_or(u32::MAX))?;
        end = end.saturating_add(read);
    }
    if RUN_LIMIT < end {
        return Err(Stop::TooLong);
    }
    run.get(..end).ok_or(Stop::TooLong)
}

fn replay(rt: &HostRuntime, scenes: &[u8], lengths: &[u32]) -> Result<(), Stop> {
    let size = first_size(scenes, lengths);
    let mut surface = vec![in rt.alloc(); 0u8; size.map_or(0, Size::bytes)]?;
    let mut answers = vec![in rt.alloc(); 0u32; lengths.len().saturating_mul(ANSWER_NUMBERS)]?;
    let mut scratch = [0i32; SCRATCH_NUMBERS];
    let replayed = playback::replay(
        scenes,
        lengths,
        false,
        b"",
        &mut surface,
        &mut scratch,
        &mut answers,
    );
    print(rt, format_args!("code {}", Code(replayed.code)));
    let last = if replayed.code == ACCEPTED {
        print_answers(rt, &answers)
    } else {
        None
    };
    print(rt, format_args!("context {}", Code(replayed.first)));
    if let (Some(last), Some(size)) = (last, size) {
        print(rt, format_args!("last {last}"));
        print_picture(rt, &surface, size);
    }
    Ok(())
}

// The size of the first scene that passes.
fn first_size(scenes: &[u8], lengths: &[u32]) -> Option<Size>
    ensures { IfSome result Allowed }
{
    let mut rest = scenes;
    for length in lengths {
        let (scene, others) = rest.split_at_checked(*length as usize)?;
        if scene::verdict::verdict(scene, false).is_ok() {
            return Size::of_scene(scene);
        }
        rest = others;
    }
    None
}

// Prints a line for each answer, and returns the number of the scene accepted last.
fn print_answers(rt: &HostRuntime, answers: &[u32]) -> Option<usize> {
    let mut last = None;
    for (i, answer) in answers.chunks_exact(ANSWER_NUMBERS).enumerate() {
        if let [code, draw, scene, x, y, width, height] = answer {
            let code = *code;
            print(
                rt,
                format_args!("{} {draw} {scene} {x} {y} {width} {height}", Code(code)),
            );
            if code == ACCEPTED {
                last = Some(i);
            }
        }
    }
    last
}
