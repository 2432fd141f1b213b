// What a proposal has to cover: the boxes, old and new, of the changed draws, or the surface.
ghost use Rattle.std.specs.Prelude.{◌≡◌, ◌++◌, ◌+◌, ◌≤◌, length};
ghost use Rattle.lists.specs.Lists.{tab};
ghost use Rattle.scene.specs.Accepted.{AcceptedScene};
ghost use Rattle.damage.specs.Damage.{boxes_at, changed_boxes};
ghost use Rattle.regions.specs.Proposals.{to_cover};
ghost use Rattle.planner.specs.Runs.{rect_at};

use rect::Rect;
use regions::accept::box_of;

// Two for each draw.
pub const BOXES: usize = 128;

// Collects what a proposal for the change from one accepted scene to another has to cover; how many.
pub fn collect(old: &[u8], new: &[u8], boxes: &mut [Rect], width: usize, height: usize) -> usize
    requires accepted_scene { AcceptedScene old.now × AcceptedScene new.now }
    requires width_bound { ((width ≤ 1024) × (height ≤ 1024)) × (length boxes.old ≡ 128) }
    ensures { (result ≤ 128) × (tab result (rect_at boxes.new) ≡ to_cover width height old.now new.now) }
{
    if damage::same_background(old, new) {
        return collect_changes(old, new, boxes, width, height);
    }
    boxes[0] = Rect {
        x0: 0,
        y0: 0,
        x1: width,
        y1: height,
    };
    1
}

// The boxes of every changed draw.
fn collect_changes(old: &[u8], new: &[u8], boxes: &mut [Rect], width: usize, height: usize) -> usize
    requires accepted_scene { AcceptedScene old.now × AcceptedScene new.now }
    requires width_bound { ((width ≤ 1024) × (height ≤ 1024)) × (length boxes.old ≡ 128) }
    ensures { (result ≤ 128) × (tab result (rect_at boxes.new) ≡ changed_boxes width height old.now new.now) }
{
    let n = damage::most_draws(old, new);
    let mut m = 0;
    for i in 0..n {
        m = add_boxes(old, new, i, boxes, m, width, height);
    }
    m
}

// Both boxes of draw i, if it is changed, behind m others; how many then.
fn add_boxes(
    old: &[u8],
    new: &[u8],
    i: usize,
    boxes: &mut [Rect],
    m: usize,
    width: usize,
    height: usize,
) -> usize
    requires accepted_scene { AcceptedScene old.now × AcceptedScene new.now }
    requires width_bound { ((width ≤ 1024) × (height ≤ 1024)) × ((length boxes.old ≡ 128) × (m ≤ 126)) }
    ensures upper_bound { result ≤ m + 2 }
    ensures boxes_after { tab result (rect_at boxes.new)
        ≡ tab m (rect_at boxes.old) ++ boxes_at width height old.now new.now i }
{
    if !damage::is_changed(old, new, i) {
        return m;
    }
    boxes[m] = box_of(old, i, width, height);
    boxes[m + 1] = box_of(new, i, width, height);
    m + 2
}
