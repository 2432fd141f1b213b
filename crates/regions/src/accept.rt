// Whether a proposal is accepted for a change from one accepted scene to another. Nothing is written, the scratch included: a rejected proposal leaves
// it as it is.
ghost use Rattle.std.specs.Prelude.{◌≡◌, ◌≤◌};
ghost use Rattle.scene.specs.Accepted.{AcceptedScene};
ghost use Rattle.damage.specs.Damage.{box_at, boxes_at, changed_boxes};
ghost use Rattle.regions.specs.Pixels.{each, covers};
ghost use Rattle.regions.specs.Proposals.{proposed, to_cover, acceptable};

use crate::cover::{all_apart, box_covered};
use crate::proposal::all_lie;
use rect::Rect;
use scene::layout::DRAW_BYTES;

// Every rule of a proposal, on a surface of that size.
#[tactic(auto, unfolding(crate::specs::Proposals::acceptable))]
pub fn accept(rectangles: &[i32], old: &[u8], new: &[u8], width: usize, height: usize) -> bool
    requires accepted_scene { AcceptedScene old.now × AcceptedScene new.now }
    requires width_bound { (width ≤ 1024) × (height ≤ 1024) }
    ensures { result ≡ acceptable width height (to_cover width height old.now new.now) rectangles.now }
{
    let len = rectangles.len();
    let n = len / 4;
    len % 4 == 0
        && 4 <= len
        && len <= 16
        && all_lie(rectangles, n, width, height)
        && all_apart(rectangles, n)
        && changes_covered(rectangles, old, new, width, height)
}

// Whether they cover what the change asks for: the boxes of the changed draws, or the surface.
fn changes_covered(rectangles: &[i32], old: &[u8], new: &[u8], width: usize, height: usize) -> bool
    requires accepted_scene { AcceptedScene old.now × AcceptedScene new.now }
    requires width_bound { (width ≤ 1024) × (height ≤ 1024) }
    ensures { result ≡ each (covers (proposed rectangles.now)) (to_cover width height old.now new.now) }
{
    if damage::same_background(old, new) {
        return draws_covered(rectangles, old, new, width, height);
    }
    let a = Rect {
        x0: 0,
        y0: 0,
        x1: width,
        y1: height,
    };
    box_covered(rectangles, rectangles.len() / 4, a)
}

// Whether they cover the boxes, old and new, of every changed draw.
fn draws_covered(rectangles: &[i32], old: &[u8], new: &[u8], width: usize, height: usize) -> bool
    requires accepted_scene { AcceptedScene old.now × AcceptedScene new.now }
    requires width_bound { (width ≤ 1024) × (height ≤ 1024) }
    ensures { result ≡ each (covers (proposed rectangles.now)) (changed_boxes width height old.now new.now) }
{
    let n = damage::most_draws(old, new);
    for i in 0..n {
        if !draw_covered(rectangles, old, new, i, width, height) {
            return false;
        }
    }
    true
}

// The same of draw i; one that is not changed has none.
fn draw_covered(
    rectangles: &[i32],
    old: &[u8],
    new: &[u8],
    i: usize,
    width: usize,
    height: usize,
) -> bool
    requires accepted_scene { AcceptedScene old.now × AcceptedScene new.now }
    requires width_bound { (width ≤ 1024) × (height ≤ 1024) }
    ensures { result ≡ each (covers (proposed rectangles.now)) (boxes_at width height old.now new.now i) }
{
    if !damage::is_changed(old, new, i) {
        return true;
    }
    let n = rectangles.len() / 4;
    box_covered(rectangles, n, box_of(old, i, width, height))
        && box_covered(rectangles, n, box_of(new, i, width, height))
}

// The box of draw i, if the scene has it.
pub fn box_of(s: &[u8], i: usize, width: usize, height: usize) -> Rect
    requires accepted_scene { AcceptedScene s.now }
    requires width_bound { (width ≤ 1024) × (height ≤ 1024) }
    ensures { result ≡ box_at width height s.now i }
{
    let n = scene::header::count(s);
    if n <= i {
        return Rect::EMPTY;
    }
    let mut d = [0u8; DRAW_BYTES];
    scene::blocks::read_draw(s, i, &mut d);
    engine::edges::lone_bounds(&d, scene::header::edition(s), width, height)
}
