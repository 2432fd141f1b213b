// Rectangles planned for a redraw: the area of the changed draws' boxes, cut where most pixels are saved, in up to four.
#![tactic(auto)]

pub mod boxes;
pub mod cuts;
pub mod planning;
pub mod rectangles;
pub mod tiles;

ghost use Rattle.std.specs.Prelude.{◌≡◌, ◌≤◌, length};
ghost use Rattle.scene.specs.Header.{width_of, height_of};
ghost use Rattle.scene.specs.Accepted.{AcceptedScene};
ghost use Rattle.render.specs.Answers.{mask_of};
ghost use Rattle.planner.specs.Written.{Written, Redrawn};

use crate::boxes::{BOXES, collect};
use crate::rectangles::{around, write};
use crate::tiles::{MOST, divide};
use codes::ACCEPTED;
use rect::Rect;
use regions::painting::{paint_regions, round};
use render::Answer;
use render::judge::judge_redraw;

// A proposal has at most so many numbers.
pub const PROPOSAL_NUMBERS: usize = 16;

// Writes a proposal for the change from one accepted scene to another of its size to the first places of a run; how many rectangles.
pub fn propose(old: &[u8], new: &[u8], width: usize, height: usize, rectangles: &mut [i32]) -> usize
    requires accepted_scene { AcceptedScene old.now × AcceptedScene new.now }
    requires width_value { ((width ≡ width_of new.now) × (height ≡ height_of new.now)) × (16 ≤ length rectangles.old) }
    ensures { Written old.now new.now result rectangles.old rectangles.new }
{
    let mut found = [Rect::EMPTY; BOXES];
    let m = collect(old, new, &mut found, width, height);
    let boxes = &found[0..m];
    let area = around(boxes);
    if area.is_empty() {
        return 0;
    }
    let mut rs = [Rect::EMPTY; MOST];
    let n = divide(boxes, area, &mut rs);
    write(&rs[0..n], rectangles);
    n
}

// Redraws as a redraw does, but in the rectangles that the planner proposes.
pub fn redraw_planned(
    old: &[u8],
    new: &[u8],
    masked: bool,
    mask: &[u8],
    surface: &mut [u8],
    scratch: &mut [i32],
) -> Answer
    ensures { Redrawn old.now new.now (mask_of masked mask.now) surface.old scratch.old
        result surface.new scratch.new }
{
    let f = judge_redraw(old, new, masked, mask, surface.len(), scratch.len());
    if f.code != ACCEPTED {
        return render::refused(f);
    }
    let width = scene::header::width(new);
    let height = scene::header::height(new);
    let mut rectangles = [0i32; PROPOSAL_NUMBERS];
    let n = propose(old, new, width, height, &mut rectangles);
    let k = n * 4;
    let m = render::taken(masked, mask.len());
    engine::edges::clear(scratch);
    paint_regions(
        surface,
        scratch,
        new,
        &mask[0..m],
        width,
        height,
        &rectangles[0..k],
    );
    render::accepted(round(&rectangles[0..k]))
}
