// A rectangle cut in two by a line, each part shrunk to what the boxes have of it. A line is a column, where `upright`, or a row.
ghost use Rattle.std.specs.Prelude.{◌≡◌, false, ◌<◌, ◌≤◌, length, IfSome};
ghost use Rattle.lists.specs.Lists.{tab};
ghost use Rattle.rect.specs.Rects.{empty_of, smallest};
ghost use Rattle.planner.specs.Runs.{rect_at};
ghost use Rattle.regions.specs.Planned.{lowest, past};
ghost use Rattle.planner.specs.Cuts.{before, beyond, shrunk, touches, free, opens, better_of};
ghost use Rattle.planner.specs.Tilings.{Searched, Tried, Opening};

use rect::Rect;

// The line at which that part of a plan is cut, and how many pixels it saves.
#[derive(Clone, Copy, PartialEq, Eq)]
pub struct Cut {
    pub part: usize,
    pub upright: bool,
    pub at: usize,
    pub saved: usize,
}

// The first line of a rectangle.
pub fn first_line(a: Rect, upright: bool) -> usize
    ensures { result ≡ lowest upright a }
{
    if upright { a.x0 } else { a.y0 }
}

// The line after its last.
pub fn end_line(a: Rect, upright: bool) -> usize
    ensures { result ≡ past upright a }
{
    if upright { a.x1 } else { a.y1 }
}

// The lines before that one.
#[tactic(auto, unfolding(crate::specs::Cuts::before))]
fn lines_before(a: Rect, upright: bool, at: usize) -> Rect
    ensures { result ≡ before upright a at }
{
    if upright {
        Rect {
            x1: a.x1.min(at),
            ..a
        }
    } else {
        Rect {
            y1: a.y1.min(at),
            ..a
        }
    }
}

// That line and those after it.
#[tactic(auto, unfolding(crate::specs::Cuts::beyond))]
fn lines_from(a: Rect, upright: bool, at: usize) -> Rect
    ensures { result ≡ beyond upright a at }
{
    if upright {
        Rect {
            x0: a.x0.max(at),
            ..a
        }
    } else {
        Rect {
            y0: a.y0.max(at),
            ..a
        }
    }
}

// The smallest rectangle round what the boxes have of it.
#[tactic(auto, unfolding(crate::specs::Cuts::shrunk))]
fn shrink(boxes: &[Rect], a: Rect) -> Rect
    ensures { result ≡ shrunk (length boxes.now) (rect_at boxes.now) a }
{
    let mut r = Rect::EMPTY;
    for b in boxes {
        r = r.join(a.meet(*b));
    }
    r
}

// Both parts of a rectangle that is cut at a line.
pub fn first_part(boxes: &[Rect], a: Rect, upright: bool, at: usize) -> Rect
    ensures { result ≡ shrunk (length boxes.now) (rect_at boxes.now) (before upright a at) }
{
    shrink(boxes, lines_before(a, upright, at))
}

pub fn second_part(boxes: &[Rect], a: Rect, upright: bool, at: usize) -> Rect
    ensures { result ≡ shrunk (length boxes.now) (rect_at boxes.now) (beyond upright a at) }
{
    shrink(boxes, lines_from(a, upright, at))
}

// How many pixels a rectangle has, a side counted as 1,024 at most, which no surface exceeds.
#[tactic(auto, using(crate::proofs::Parts::square))]
fn pixels(a: Rect) -> usize
    ensures { result ≤ 1048576 }
{
    side(a.x0, a.x1) * side(a.y0, a.y1)
}

fn side(start: usize, end: usize) -> usize
    ensures { result ≤ 1024 }
{
    end.saturating_sub(start).min(1024)
}

// The cut of a rectangle, which is that part of a plan, at a line.
pub fn cut_at(boxes: &[Rect], a: Rect, part: usize, upright: bool, at: usize) -> Cut
    ensures { (result.part ≡ part) × ((result.upright ≡ upright) × (result.at ≡ at)) }
{
    let first = pixels(first_part(boxes, a, upright, at));
    let second = pixels(second_part(boxes, a, upright, at));
    Cut {
        part,
        upright,
        at,
        saved: pixels(a).saturating_sub(first + second),
    }
}

// The cut that saves more.
pub fn better(a: Option<Cut>, b: Option<Cut>) -> Option<Cut>
    ensures { result ≡ better_of a b }
{
    match (a, b) {
        (None, b) => b,
        (a, None) => a,
        (Some(a), Some(b)) => Some(if a.saved < b.saved { b } else { a }),
    }
}

// Whether a box has a pixel in the line.
#[tactic(auto, unfolding(crate::specs::Cuts::touches))]
fn has_line(b: Rect, upright: bool, at: usize) -> bool
    ensures { result ≡ touches upright b at }
{
    !b.is_empty() && first_line(b, upright) <= at && at < end_line(b, upright)
}

// Whether no box has.
fn is_free(boxes: &[Rect], upright: bool, at: usize) -> bool
    ensures { result ≡ free upright (length boxes.now) (rect_at boxes.now) at }
{
    for b in boxes {
        if has_line(*b, upright, at) {
            return false;
        }
    }
    true
}

// Whether it is a line of the area that none has.
#[tactic(auto, unfolding(crate::specs::Cuts::opens))]
fn is_open(boxes: &[Rect], area: Rect, upright: bool, at: usize) -> bool
    ensures { result ≡ opens (length boxes.now) (rect_at boxes.now) area upright at }
{
    first_line(area, upright) <= at && at < end_line(area, upright) && is_free(boxes, upright, at)
}

// The better of a cut and that of the area at a line, if none has it.
fn try_open(best: Option<Cut>, boxes: &[Rect], area: Rect, upright: bool, at: usize) -> Option<Cut>
    ensures { Tried (length boxes.now) (rect_at boxes.now) area upright at best result }
{
    if !is_open(boxes, area, upright, at) {
        return best;
    }
    better(best, Some(cut_at(boxes, area, 0, upright, at)))
}

// The best cut of the area at a free column, or row. What is free begins where a box ends, so the boxes' ends are enough.
fn free_cut(boxes: &[Rect], area: Rect, upright: bool) -> Option<Cut>
    ensures { Searched (length boxes.now) (rect_at boxes.now) area upright (length boxes.now) result }
{
    let mut best = None;
    for b in boxes {
        best = try_open(best, boxes, area, upright, end_line(*b, upright));
    }
    best
}

// The best cut of the area at a free column or row, if there is one.
pub fn opening_cut(boxes: &[Rect], area: Rect) -> Option<Cut>
    requires area_value { area ≡ smallest (tab (length boxes.now) (rect_at boxes.now)) }
    requires area_wide { empty_of area ≡ false }
    ensures { Opening (length boxes.now) (rect_at boxes.now) area result }
{
    let columns = free_cut(boxes, area, true);
    let rows = free_cut(boxes, area, false);
    better(columns, rows)
}

// The better of a cut of a rectangle, which is that part of a plan, and its cut at a line, if that lies inside it.
fn try_line(
    best: Option<Cut>,
    boxes: &[Rect],
    a: Rect,
    part: usize,
    upright: bool,
    at: usize,
) -> Option<Cut>
    requires { IfSome best (λ c. c.part ≡ part) }
    ensures { IfSome result (λ c. c.part ≡ part) }
{
    if at <= first_line(a, upright) || end_line(a, upright) <= at {
        return best;
    }
    better(best, Some(cut_at(boxes, a, part, upright, at)))
}

// The better of a cut and those of a rectangle at the four ends of a box.
fn try_box(best: Option<Cut>, boxes: &[Rect], a: Rect, part: usize, b: Rect) -> Option<Cut>
    requires { IfSome best (λ c. c.part ≡ part) }
    ensures { IfSome result (λ c. c.part ≡ part) }
{
    let left = try_line(best, boxes, a, part, true, b.x0);
    let right = try_line(left, boxes, a, part, true, b.x1);
    let lower = try_line(right, boxes, a, part, false, b.y0);
    try_line(lower, boxes, a, part, false, b.y1)
}

// The best cut of a rectangle, which is that part of a plan, at the ends of the boxes.
fn best_cut(boxes: &[Rect], a: Rect, part: usize) -> Option<Cut>
    ensures { IfSome result (λ c. c.part ≡ part) }
{
    let mut best = None;
    for b in boxes {
        best = try_box(best, boxes, a, part, *b);
    }
    best
}

// The best cut of some rectangles.
pub fn best_of(boxes: &[Rect], rs: &[Rect]) -> Option<Cut>
    ensures { IfSome result (λ c. c.part < length rs.now) }
{
    let mut best = None;
    for (i, r) in rs.iter().enumerate() {
        best = better(best, best_cut(boxes, *r, i));
    }
    best
}
