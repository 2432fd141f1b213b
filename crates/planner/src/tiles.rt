// The rectangles planned for some boxes, one cut after the other.
ghost use Rattle.std.specs.Prelude.{◌≡◌, false, ◌≤◌, ◌<◌, length};
ghost use Rattle.lists.specs.Lists.{tab};
ghost use Rattle.rect.specs.Rects.{empty_of, smallest};
ghost use Rattle.planner.specs.Runs.{rect_at};
ghost use Rattle.planner.specs.Cuts.{split_run, split_count};
ghost use Rattle.planner.specs.Tilings.{Refined, Divided};

use crate::cuts::{Cut, best_of, first_part, opening_cut, second_part};
use rect::Rect;

// At most so many rectangles.
pub const MOST: usize = 4;

// A cut that saves fewer pixels is not made.
const WORTH: usize = 1;

// Divides the boxes' area into up to four rectangles that cover them; how many.
pub fn divide(boxes: &[Rect], area: Rect, rs: &mut [Rect]) -> usize
    requires area_value { area ≡ smallest (tab (length boxes.now) (rect_at boxes.now)) }
    requires area_wide { (empty_of area ≡ false) × (length rs.old ≡ 4) }
    ensures { Divided (length boxes.now) (rect_at boxes.now) area result (rect_at rs.new) }
{
    let n = start(boxes, area, rs);
    refine(boxes, rs, n)
}

// The area, cut once at a free column or row if there is one.
fn start(boxes: &[Rect], area: Rect, rs: &mut [Rect]) -> usize
    requires area_value { area ≡ smallest (tab (length boxes.now) (rect_at boxes.now)) }
    requires area_wide { (empty_of area ≡ false) × (length rs.old ≡ 4) }
    ensures { Divided (length boxes.now) (rect_at boxes.now) area result (rect_at rs.new) }
{
    rs[0] = area;
    match opening_cut(boxes, area) {
        Some(cut) => split(boxes, rs, 1, Cut { part: 0, ..cut }),
        None => 1,
    }
}

// Cuts n rectangles further, as long as it is worth it.
fn refine(boxes: &[Rect], rs: &mut [Rect], n: usize) -> usize
    requires { (length rs.old ≡ 4) × (1 ≤ n) }
    ensures { Refined (length boxes.now) (rect_at boxes.now) n (rect_at rs.old) result (rect_at rs.new) }
{
    let mut k = n;
    while k < MOST {
        let more = refine_once(boxes, rs, k);
        if more <= k {
            return more;
        }
        k = more;
    }
    k
}

// Makes the cut of n rectangles that saves most pixels, if it is worth it.
fn refine_once(boxes: &[Rect], rs: &mut [Rect], n: usize) -> usize
    requires { (length rs.old ≡ 4) × ((1 ≤ n) × (n < 4)) }
    ensures { Refined (length boxes.now) (rect_at boxes.now) n (rect_at rs.old) result (rect_at rs.new) }
{
    match best_of(boxes, &rs[0..n]) {
        Some(cut) if WORTH <= cut.saved => split(boxes, rs, n, cut),
        _ => n,
    }
}

// Cuts one of n rectangles at a line, unless a part has no pixel; how many there are then.
#[tactic(auto, unfolding(crate::specs::Cuts::split_count, crate::specs::Cuts::split_run))]
fn split(boxes: &[Rect], rs: &mut [Rect], n: usize, cut: Cut) -> usize
    requires { (length rs.old ≡ 4) × ((cut.part < n) × (n < 4)) }
    ensures value { result ≡ split_count (length boxes.now) (rect_at boxes.now) rs.old n cut.part cut.upright cut.at }
    ensures rs_after { rs.new ≡ split_run (length boxes.now) (rect_at boxes.now) rs.old n cut.part cut.upright cut.at }
{
    let a = rs[cut.part];
    let first = first_part(boxes, a, cut.upright, cut.at);
    let second = second_part(boxes, a, cut.upright, cut.at);
    if first.is_empty() || second.is_empty() {
        return n;
    }
    rs[cut.part] = first;
    rs[n] = second;
    n + 1
}
