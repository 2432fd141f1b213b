// The renderer's calls, and what they leave.
ghost use Rattle.std.specs.Prelude.{◌≡◌, ◌≤◌, length, option_map};
ghost use Rattle.lists.specs.Lists.{over};
ghost use Rattle.render.specs.Answers.{no_mask, draw_surface, draw_scratch};
ghost use Rattle.limits.specs.Calls.{bytes, numbers, call_answer, call_surface, call_other, call_scratch, surface_left, other_left, scratch_left};

use crate::patterns::{fill_bytes, fill_numbers, is_pattern, is_zero};
use codes::ACCEPTED;
use console::arguments::Arguments;
use console::output::told;
use render::Answer;

// A call: where its arguments end, its files, and the sizes of what it is lent. A drawing has no old file.
#[derive(Clone, Copy)]
pub struct Call<'a> {
    pub end: usize,
    pub old: Option<&'a [u8]>,
    pub new: &'a [u8],
    pub surface: usize,
    pub scratch: usize,
    ghost sized: { (surface ≤ 1048576) × (scratch ≤ 16384) },
}

impl Call<'_> {
    // Runs the call, which starts at argument i, and prints its line. What it is not lent stays as it is.
    pub fn run(
        self,
        rt: &HostRuntime,
        arguments: &Arguments,
        i: usize,
        surface: &mut [u8],
        other: &mut [u8],
        scratch: &mut [i32],
    )
        requires { (self.surface ≤ length surface.old) × (self.surface ≤ length other.old) × (self.scratch ≤ length scratch.old) }
        ensures surface_after { surface.new
            ≡ over (surface_left (option_map (λ o. o.now) self.entry.old) self.entry.new.now self.entry.surface self.entry.scratch) surface.old }
        ensures other_after { other.new
            ≡ over (other_left (option_map (λ o. o.now) self.entry.old) self.entry.new.now self.entry.surface self.entry.scratch) other.old }
        ensures scratch_after { scratch.new
            ≡ over (scratch_left (option_map (λ o. o.now) self.entry.old) self.entry.new.now self.entry.surface self.entry.scratch) scratch.old }
    {
        print_words(rt, arguments, i, self.end);
        run_lent(
            rt,
            self.old,
            self.new,
            &mut surface[..self.surface],
            &mut other[..self.surface],
            &mut scratch[..self.scratch],
        );
    }
}

// Prints the arguments of a call, with a space between two of them. Why these bytes cannot be written is told with the line's other part.
pub fn print_words(rt: &HostRuntime, arguments: &Arguments, from: usize, to: usize) {
    for i in from..to {
        if from < i {
            let _ = rt.write_all(b" ");
        }
        let _ = rt.write_all(arguments.get(i).unwrap_or(b""));
    }
}

fn run_lent(
    rt: &HostRuntime,
    old: Option<&[u8]>,
    new: &[u8],
    surface: &mut [u8],
    other: &mut [u8],
    scratch: &mut [i32],
)
    requires { length other.old ≡ length surface.old }
    ensures surface_after { surface.new
        ≡ surface_left (option_map (λ o. o.now) old.entry) new.now (length surface.old) (length scratch.old) }
    ensures other_after { other.new
        ≡ other_left (option_map (λ o. o.now) old.entry) new.now (length surface.old) (length scratch.old) }
    ensures scratch_after { scratch.new
        ≡ scratch_left (option_map (λ o. o.now) old.entry) new.now (length surface.old) (length scratch.old) }
{
    fill_bytes(surface, 0);
    fill_bytes(other, 0);
    let answer = lend(old, new, surface, other, scratch);
    if answer.code == ACCEPTED {
        report_accepted(rt, answer, new, surface, other, scratch);
    } else {
        report_refused(rt, answer, surface, other, scratch);
    }
}

// Leaves on the other surface what this one held before the call: a pattern, or the old scene's picture where it can be drawn.
fn lend(
    old: Option<&[u8]>,
    new: &[u8],
    surface: &mut [u8],
    other: &mut [u8],
    scratch: &mut [i32],
) -> Answer
    ensures value { result
        ≡ call_answer (option_map (λ o. o.now) old.entry) new.now (length surface.old) (length scratch.old) }
    ensures surface_after { surface.new
        ≡ call_surface (option_map (λ o. o.now) old.entry) new.now surface.old (length scratch.old) }
    ensures other_after { other.new
        ≡ call_other (option_map (λ o. o.now) old.entry) other.old (length scratch.old) }
    ensures scratch_after { scratch.new
        ≡ call_scratch (option_map (λ o. o.now) old.entry) new.now (length surface.old) (length scratch.old) }
{
    match old {
        None => {
            fill_numbers(scratch);
            render::draw_unmasked(new, surface, scratch)
        }
        Some(old) => {
            render::draw_unmasked(old, surface, scratch);
            render::draw_unmasked(old, other, scratch);
            fill_numbers(scratch);
            render::redraw_unmasked(old, new, surface, scratch)
        }
    }
}

fn report_refused(rt: &HostRuntime, a: Answer, surface: &[u8], other: &[u8], scratch: &[i32]) {
    print_line(
        rt,
        a,
        claim(surface == other, "kept"),
        claim(is_pattern(scratch), "kept"),
    );
}

// Draws the scene on the other surface, from another pattern, to compare.
fn report_accepted(
    rt: &HostRuntime,
    a: Answer,
    scene: &[u8],
    surface: &[u8],
    other: &mut [u8],
    scratch: &mut [i32],
)
    ensures other_after { other.new ≡ draw_surface scene.now no_mask (bytes 85 (length other.old)) (length scratch.old) }
    ensures scratch_after { scratch.new ≡ draw_scratch scene.now no_mask (length other.old) (numbers (length scratch.old)) }
{
    let room = claim(is_zero(scratch), "zero");
    fill_bytes(other, 85);
    fill_numbers(scratch);
    render::draw_unmasked(scene, other, scratch);
    print_line(rt, a, claim(surface == other, "drawn"), room);
}

fn claim(holds: bool, word: &'static str) -> &'static str {
    if holds { word } else { "WRONG" }
}

fn print_line(rt: &HostRuntime, a: Answer, surface: &str, room: &str) {
    told(
        rt,
        println!(rt;
            ": {:04x} {} {} {} {} {} {}, surface {surface}, room {room}",
            a.code, a.draw, a.scene, a.x, a.y, a.width, a.height
        ),
    );
}
