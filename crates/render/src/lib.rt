// Rendering: the full drawing of a scene, and the quick redraw from one scene to another.
#![tactic(auto)]

pub mod judge;

ghost use Rattle.std.specs.Prelude.{◌≡◌, cond, length};
ghost use Rattle.rect.specs.Rects.{On};
ghost use Rattle.render.specs.Answers.{mask_of, no_mask, refused_answer, accepted_answer, draw_answer, draw_surface, draw_scratch};
ghost use Rattle.render.specs.Answers.{redraw_answer, redraw_surface, redraw_scratch, Accepted};

use crate::judge::{judge_draw, judge_redraw_from, judge_scene};
use codes::ACCEPTED;
use rect::Rect;
use scene::layout::NO_DRAW;

// Why a call is refused: its code, 0 for none, the draw number and the scene number, as the answer that C takes has them.
#[derive(Clone, Copy)]
pub struct Refusal {
    pub code: u32,
    pub draw: u32,
    pub scene: u32,
}

// What a call answers: code, draw number, scene number, and the area.
#[repr(C)]
#[derive(Clone, Copy)]
pub struct Answer {
    pub code: u32,
    pub draw: u32,
    pub scene: u32,
    pub x: u32,
    pub y: u32,
    pub width: u32,
    pub height: u32,
}

// Draws a scene in full, under the mask where one is lent. The scratch may hold anything before; afterwards it is zero, unless the call is refused.
pub fn draw(
    scene: &[u8],
    masked: bool,
    mask: &[u8],
    surface: &mut [u8],
    scratch: &mut [i32],
) -> Answer
    ensures value { result
        ≡ draw_answer scene.now (mask_of masked mask.now) (length surface.old) (length scratch.old) }
    ensures surface_after { surface.new
        ≡ draw_surface scene.now (mask_of masked mask.now) surface.old (length scratch.old) }
    ensures scratch_after { scratch.new
        ≡ draw_scratch scene.now (mask_of masked mask.now) (length surface.old) scratch.old }
{
    let f = judge_draw(scene, masked, mask, surface.len(), scratch.len());
    if f.code != ACCEPTED {
        return refused(f);
    }
    let width = scene::header::width(scene);
    let height = scene::header::height(scene);
    let n = scene::header::count(scene);
    let a = Rect {
        x0: 0,
        y0: 0,
        x1: width,
        y1: height,
    };
    let m = taken(masked, mask.len());
    engine::edges::clear(scratch);
    engine::draws::paint_area(surface, scratch, scene, &mask[0..m], width, height, n, a);
    accepted(a)
}

// The same without a mask.
pub fn draw_unmasked(scene: &[u8], surface: &mut [u8], scratch: &mut [i32]) -> Answer
    ensures value { result ≡ draw_answer scene.now no_mask (length surface.old) (length scratch.old) }
    ensures surface_after { surface.new ≡ draw_surface scene.now no_mask surface.old (length scratch.old) }
    ensures scratch_after { scratch.new ≡ draw_scratch scene.now no_mask (length surface.old) scratch.old }
{
    draw(scene, false, &scene[0..0], surface, scratch)
}

// Redraws what the step from the old scene to the new one changes, with one mask for both or none. A surface that held the old picture then holds
// the new one.
pub fn redraw(
    old: &[u8],
    new: &[u8],
    masked: bool,
    mask: &[u8],
    surface: &mut [u8],
    scratch: &mut [i32],
) -> Answer
    ensures value { result
        ≡ redraw_answer old.now new.now (mask_of masked mask.now)
        (length surface.old) (length scratch.old) }
    ensures surface_after { surface.new
        ≡ redraw_surface old.now new.now (mask_of masked mask.now) surface.old (length scratch.old) }
    ensures scratch_after { scratch.new
        ≡ redraw_scratch old.now new.now (mask_of masked mask.now) (length surface.old) scratch.old }
{
    let f = judge_scene(masked, old, 0);
    if f.code != ACCEPTED {
        return refused(f);
    }
    redraw_from(old, new, masked, mask, surface, scratch)
}

// The same from a scene that was judged before, so that it is not judged again.
pub fn redraw_from(
    old: &[u8],
    new: &[u8],
    masked: bool,
    mask: &[u8],
    surface: &mut [u8],
    scratch: &mut [i32],
) -> Answer
    requires { Accepted (mask_of masked mask.now) old.now }
    ensures value { result
        ≡ redraw_answer old.now new.now (mask_of masked mask.now)
        (length surface.old) (length scratch.old) }
    ensures surface_after { surface.new
        ≡ redraw_surface old.now new.now (mask_of masked mask.now) surface.old (length scratch.old) }
    ensures scratch_after { scratch.new
        ≡ redraw_scratch old.now new.now (mask_of masked mask.now) (length surface.old) scratch.old }
{
    let f = judge_redraw_from(old, new, masked, mask, surface.len(), scratch.len());
    if f.code != ACCEPTED {
        return refused(f);
    }
    let width = scene::header::width(new);
    let height = scene::header::height(new);
    let n = scene::header::count(new);
    let m = taken(masked, mask.len());
    engine::edges::clear(scratch);
    let a = damage::damage(old, new, scratch, width, height);
    engine::draws::paint_area(surface, scratch, new, &mask[0..m], width, height, n, a);
    accepted(a)
}

// The same without a mask.
pub fn redraw_unmasked(old: &[u8], new: &[u8], surface: &mut [u8], scratch: &mut [i32]) -> Answer
    ensures value { result ≡ redraw_answer old.now new.now no_mask (length surface.old) (length scratch.old) }
    ensures surface_after { surface.new
        ≡ redraw_surface old.now new.now no_mask surface.old (length scratch.old) }
    ensures scratch_after { scratch.new
        ≡ redraw_scratch old.now new.now no_mask (length surface.old) scratch.old }
{
    redraw(old, new, false, &new[0..0], surface, scratch)
}

// How many bytes of a mask's run are looked at: none where it is not lent.
pub fn taken(masked: bool, n: usize) -> usize
    ensures { result ≡ cond masked n 0 }
{
    if masked { n } else { 0 }
}

pub fn refused(f: Refusal) -> Answer
    ensures { result ≡ refused_answer f }
{
    Answer {
        code: f.code,
        draw: f.draw,
        scene: f.scene,
        x: 0,
        y: 0,
        width: 0,
        height: 0,
    }
}

pub fn accepted(a: Rect) -> Answer
    requires { On 1024 1024 a }
    ensures { result ≡ accepted_answer a }
{
    Answer {
        code: ACCEPTED,
        draw: NO_DRAW as u32,
        scene: 0,
        x: a.x0 as u32,
        y: a.y0 as u32,
        width: (a.x1 - a.x0) as u32,
        height: (a.y1 - a.y0) as u32,
    }
}
