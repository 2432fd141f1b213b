// Why a pixel has its colour: how an explanation begins, and the line of a draw. A line is a value, a function of the draw and of the pixel so far, so
// that no surface, no scratch and no place for the lines is lent. The way of a line:
//
//     judge     whether the scene, the mask and the pixel pass
//     lines     the draw's bytes, its byte of the mask, and the line
//     samples   the scissors and k at one pixel
//     windings  the winding numbers of its samples
//     paints    the paint at one pixel
#![tactic(auto)]

pub mod judge;
mod lines;
mod paints;
mod samples;
mod windings;

ghost use Rattle.std.specs.Prelude.{◌≡◌};
ghost use Rattle.render.specs.Answers.{mask_of};
ghost use Rattle.reason.specs.Explanations.{start_of, line_answer};

use crate::judge::judge_pixel;
use crate::lines::{bare, scene_line};
use codes::ACCEPTED;
use color::Pixel;
use scene::layout::NO_DRAW;

// The kinds of a line: none, outside scissors that are on, not covered, covered. They are numbers since C reads them in `Line`.
pub const NO_LINE: u32 = 0;

pub const OUTSIDE: u32 = 1;

pub const UNCOVERED: u32 = 2;

pub const COVERED: u32 = 3;

// The bytes of a pixel where there is none to tell.
const NO_PIXEL: Pixel = Pixel {
    r: 0,
    g: 0,
    b: 0,
    a: 0,
};

// What a draw does at a pixel: the kind of the line, the pixel before the draw and after it. Where it is covered also k, 1 if the draw uses the mask and 0
// if not, the mask's byte, which is 255 where it does not, and the paint's premultiplied bytes as blended.
#[repr(C)]
#[derive(Clone, Copy)]
pub struct Line {
    pub kind: u32,
    pub before: Pixel,
    pub after: Pixel,
    pub k: u32,
    pub masked: u32,
    pub mask: u32,
    pub paint: Pixel,
}

// How an explanation begins: a refusal's code, 0 for none, its draw number and its offset in the file; the number of draws, and the pixel before the first.
#[repr(C)]
#[derive(Clone, Copy)]
pub struct Start {
    pub code: u32,
    pub draw: u32,
    pub offset: usize,
    pub draws: u32,
    pub pixel: Pixel,
}

// Begins the explanation of the pixel (x, y), whatever numbers these are.
pub fn begin(scene: &[u8], masked: bool, mask: &[u8], x: usize, y: usize) -> Start
    ensures { result ≡ start_of scene.now (mask_of masked mask.now) x y }
{
    match judge_pixel(scene, masked, mask, x, y) {
        Err(f) => Start {
            code: f.code.number(),
            draw: f.draw as u32,
            offset: f.offset,
            draws: 0,
            pixel: NO_PIXEL,
        },
        Ok(()) => Start {
            code: ACCEPTED,
            draw: NO_DRAW as u32,
            offset: 0,
            draws: scene::header::count(scene) as u32,
            pixel: scene::header::background(scene).premultiplied(),
        },
    }
}

// The line of draw i at the pixel (x, y), which holds `before`. There is none where the call is refused or the scene has no such draw.
pub fn explain_draw(
    scene: &[u8],
    masked: bool,
    mask: &[u8],
    x: usize,
    y: usize,
    i: usize,
    before: Pixel,
) -> Line
    ensures { result ≡ line_answer scene.now (mask_of masked mask.now) x y i before }
{
    if judge_pixel(scene, masked, mask, x, y).is_err() {
        return bare(NO_LINE, before);
    }
    if scene::header::count(scene) <= i {
        return bare(NO_LINE, before);
    }
    scene_line(scene, mask, x, y, i, before)
}
