// The redrawn area of a change from one scene to another.
#![tactic(auto)]

ghost use Rattle.std.specs.Prelude.{◌≡◌, ◌≤◌, max};
ghost use mathlib.Core.List.{foldl};
ghost use Rattle.rect.specs.Rects.{On, join_of, smallest};
ghost use Rattle.scene.specs.Header.{count_of};
ghost use Rattle.scene.specs.Accepted.{AcceptedScene};
ghost use Rattle.damage.specs.Damage.{changed_at, box_at, boxes_at, changed_boxes, same_background, damage_of};
ghost use Rattle.engine.specs.Rows.{Blank};

use rect::Rect;
use scene::layout::DRAW_BYTES;

// The box of draw i, if the scene has it.
fn box_at(s: &[u8], i: usize, scratch: &mut [i32], width: usize, height: usize) -> Rect
    requires accepted_scene { AcceptedScene s.now }
    requires blank { Blank scratch.old }
    requires width_bound { (width ≤ 1024) × (height ≤ 1024) }
    ensures value { (result ≡ box_at width height s.now i) × ((result.x1 ≤ width) × (result.y1 ≤ height)) }
    ensures scratch_unchanged { scratch.new ≡ scratch.old }
{
    let n = scene::header::count(s);
    if n <= i {
        return Rect::EMPTY;
    }
    let mut d = [0u8; DRAW_BYTES];
    scene::blocks::read_draw(s, i, &mut d);
    engine::edges::draw_bounds(scratch, &d, scene::header::edition(s), width, height)
}

// Whether draw i is changed.
#[tactic(auto, unfolding(crate::specs::Damage::changed_at))]
pub fn is_changed(old: &[u8], new: &[u8], i: usize) -> bool
    requires { AcceptedScene old.now × AcceptedScene new.now }
    ensures { result ≡ changed_at old.now new.now i }
{
    let m = scene::header::count(old);
    let n = scene::header::count(new);
    if m <= i {
        return i < n;
    }
    n <= i
        || scene::header::edition(old) != scene::header::edition(new)
        || !scene::blocks::same_draw(old, new, i)
}

// The rectangle a with both boxes of draw i, if it is changed.
fn grow(
    a: Rect,
    old: &[u8],
    new: &[u8],
    i: usize,
    scratch: &mut [i32],
    width: usize,
    height: usize,
) -> Rect
    requires accepted_scene { AcceptedScene old.now × AcceptedScene new.now }
    requires blank { Blank scratch.old }
    requires on { On width height a × ((width ≤ 1024) × (height ≤ 1024)) }
    ensures value { (result ≡ foldl join_of a (boxes_at width height old.now new.now i)) × On width height result }
    ensures scratch_unchanged { scratch.new ≡ scratch.old }
{
    if is_changed(old, new, i) {
        let before = box_at(old, i, scratch, width, height);
        let after = box_at(new, i, scratch, width, height);
        a.join(before).join(after)
    } else {
        a
    }
}

// The number of draws of the scene that has more.
pub fn most_draws(old: &[u8], new: &[u8]) -> usize
    requires { AcceptedScene old.now × AcceptedScene new.now }
    ensures { result ≡ max (count_of old.now) (count_of new.now) }
{
    scene::header::count(old).max(scene::header::count(new))
}

// The smallest rectangle that holds both boxes of every changed draw.
fn changed_boxes(old: &[u8], new: &[u8], scratch: &mut [i32], width: usize, height: usize) -> Rect
    requires accepted_scene { AcceptedScene old.now × AcceptedScene new.now }
    requires blank { Blank scratch.old }
    requires width_bound { (width ≤ 1024) × (height ≤ 1024) }
    ensures value { (result ≡ smallest (changed_boxes width height old.now new.now)) × On width height result }
    ensures scratch_unchanged { scratch.new ≡ scratch.old }
{
    let mut a = Rect::EMPTY;
    let n = most_draws(old, new);
    for i in 0..n {
        a = grow(a, old, new, i, scratch, width, height);
    }
    a
}

#[tactic(auto, unfolding(crate::specs::Damage::same_background))]
pub fn same_background(old: &[u8], new: &[u8]) -> bool
    requires { AcceptedScene old.now × AcceptedScene new.now }
    ensures { result ≡ same_background old.now new.now }
{
    scene::header::background(old) == scene::header::background(new)
}

// The redrawn area of the change from one accepted scene to another, on a surface of that size.
pub fn damage(old: &[u8], new: &[u8], scratch: &mut [i32], width: usize, height: usize) -> Rect
    requires accepted_scene { AcceptedScene old.now × AcceptedScene new.now }
    requires width_bound { (width ≤ 1024) × (height ≤ 1024) }
    requires blank { Blank scratch.old }
    ensures value { (result ≡ damage_of width height old.now new.now) × On width height result }
    ensures scratch_unchanged { scratch.new ≡ scratch.old }
{
    if same_background(old, new) {
        return changed_boxes(old, new, scratch, width, height);
    }
    Rect {
        x0: 0,
        y0: 0,
        x1: width,
        y1: height,
    }
}
