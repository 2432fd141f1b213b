// Whether rectangles in a run of signed numbers cover a box, and whether two of them share a pixel.
ghost use Rattle.std.specs.Prelude.{◌≡◌, true, cond, ◌&&◌, ◌+◌, ◌*◌, ◌≤◌, ◌<◌, length, leb, ltb};
ghost use Rattle.lists.specs.Lists.{tab};
ghost use Rattle.rect.specs.Rects.{inside};
ghost use Rattle.regions.specs.Pixels.{every, covers, apart};
ghost use Rattle.regions.specs.Proposals.{proposed_at, all_apart};
ghost use Rattle.regions.specs.Runs.{in_one, column_covered};

use crate::proposal::rect_at;
use rect::Rect;

#[tactic(auto, unfolding(rect::specs::Rects::inside))]
fn holds(a: Rect, x: usize, y: usize) -> bool
    ensures { result ≡ inside a x y }
{
    a.x0 <= x && x < a.x1 && a.y0 <= y && y < a.y1
}

// Whether the pixel (x, y) is in one of the first n.
fn in_one(s: &[i32], n: usize, x: usize, y: usize) -> bool
    requires { n * 4 ≤ length s.now }
    ensures { result ≡ in_one n (proposed_at s.now) x y }
{
    for k in 0..n {
        if holds(rect_at(s, k), x, y) {
            return true;
        }
    }
    false
}

// The same of a pixel in the rows y0 up to y1; one in another row passes.
fn row_passes(s: &[i32], n: usize, x: usize, y: usize, y0: usize, y1: usize) -> bool
    requires { n * 4 ≤ length s.now }
    ensures { result ≡ cond (leb y0 y && ltb y y1) (in_one n (proposed_at s.now) x y) true }
{
    y < y0 || y1 <= y || in_one(s, n, x, y)
}

// Whether they cover column x of the rows y0 up to y1. What is covered can end only where one of them ends, so y0 and the rows where
// one ends are enough.
fn column(s: &[i32], n: usize, y0: usize, y1: usize, x: usize) -> bool
    requires { n * 4 ≤ length s.now }
    ensures { result ≡ column_covered s.now n y0 y1 x }
{
    if !row_passes(s, n, x, y0, y0, y1) {
        return false;
    }
    for k in 0..n {
        let e = rect_at(s, k);
        if !row_passes(s, n, x, e.y1, y0, y1) {
            return false;
        }
    }
    true
}

// Column x passes where it is not one of the box.
fn column_passes(s: &[i32], n: usize, b: Rect, x: usize) -> bool
    requires { n * 4 ≤ length s.now }
    ensures { result ≡ cond (leb b.x0 x && ltb x b.x1) (column_covered s.now n b.y0 b.y1 x) true }
{
    x < b.x0 || b.x1 <= x || column(s, n, b.y0, b.y1, x)
}

// Whether each pixel of b is in one of the first n.
pub fn box_covered(s: &[i32], n: usize, b: Rect) -> bool
    requires { n * 4 ≤ length s.now }
    ensures { result ≡ covers (tab n (proposed_at s.now)) b }
{
    if !column_passes(s, n, b, b.x0) {
        return false;
    }
    for k in 0..n {
        let e = rect_at(s, k);
        if !column_passes(s, n, b, e.x1) {
            return false;
        }
    }
    true
}

// Whether no pixel of a is in b.
fn are_apart(a: Rect, b: Rect) -> bool
    ensures { result ≡ apart a b }
{
    a.meet(b).is_empty()
}

// Whether no rectangle before the ith shares a pixel with it.
fn apart_before(s: &[i32], i: usize) -> bool
    requires { i * 4 + 3 < length s.now }
    ensures { result ≡ every i (λ j. apart (proposed_at s.now i) (proposed_at s.now j)) }
{
    let a = rect_at(s, i);
    for j in 0..i {
        if !are_apart(a, rect_at(s, j)) {
            return false;
        }
    }
    true
}

// Whether no two of the first n share a pixel.
pub fn all_apart(s: &[i32], n: usize) -> bool
    requires { n * 4 ≤ length s.now }
    ensures { result ≡ all_apart n (proposed_at s.now) }
{
    for i in 0..n {
        if !apart_before(s, i) {
            return false;
        }
    }
    true
}
