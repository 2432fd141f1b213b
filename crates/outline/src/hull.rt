// A rectangle that holds the box of a path, by its control points alone: no curve is cut.
ghost use Rattle.std.specs.Prelude.{◌≡◌, Ok, ◌≤◌, length};
ghost use Rattle.rect.specs.Rects.{Holds};
ghost use Rattle.path.specs.Boxes.{box_of};
ghost use Rattle.path.specs.Limits.{Limited};
ghost use Rattle.path.specs.Segments.{line_to, drawn_by, fault_to};
ghost use Rattle.path.specs.Curves.{drawn_edges, path_edges};
ghost use Rattle.outline.specs.Asked.{PenPlaced, CurvePlaced};
ghost use Rattle.outline.specs.Around.{Wider, Around};

use crate::bounds::{grown, pixels};
use crate::frame::{NOTHING, between, frame, is_paired};
use crate::store::same_point;
use path::commands::returns;
use path::plain::{is_plain, taken_by};
use path::tracing::trace;
use path::{Curve, Edge, FixedMatrix, Pen, Walk};
use rect::Rect;

// Pixels of a surface of that size that hold the box of an accepted path of n segments.
pub fn path_hull(
    m: FixedMatrix,
    segments: &[u8],
    n: usize,
    coordinates: &[u8],
    width: usize,
    height: usize,
) -> Rect
    requires n_bound { (n ≤ 128) × (n ≤ length segments.now) }
    requires limited { Limited m × (fault_to m segments.now coordinates.now n ≡ Ok tt) }
    requires width_bound { (width ≤ 1024) × (height ≤ 1024) }
    ensures { Holds result (box_of width height (path_edges m segments.now coordinates.now n)) }
{
    pixels(control_box(m, segments, n, coordinates), width, height)
}

// From a least corner to a greatest: the edges of an accepted path of n segments lie between. Where the coordinates are x and y in turn, they
// alone tell.
fn control_box(m: FixedMatrix, segments: &[u8], n: usize, coordinates: &[u8]) -> Edge
    requires n_bound { (n ≤ 128) × (n ≤ length segments.now) }
    requires limited { Limited m × (fault_to m segments.now coordinates.now n ≡ Ok tt) }
    ensures { Around result (path_edges m segments.now coordinates.now n) }
{
    if is_plain(m, segments, n) && is_paired(segments, n) {
        return frame(m, coordinates, taken_by(segments, n) / 2);
    }
    surround(m, segments, n, coordinates)
}

// The same for any accepted path, point by point.
fn surround(m: FixedMatrix, segments: &[u8], n: usize, coordinates: &[u8]) -> Edge
    requires n_bound { (n ≤ 128) × (n ≤ length segments.now) }
    requires limited { Limited m × (fault_to m segments.now coordinates.now n ≡ Ok tt) }
    ensures { Around result (path_edges m segments.now coordinates.now n) }
{
    let mut walk = Walk::new();
    let mut c = NOTHING;
    for i in 0..n {
        let byte = segments[i];
        let t = trace(coordinates, walk, byte);
        c = add_segment(m, c, walk.pen, byte, t.curve);
        walk = t.walk;
    }
    add_closing(m, c, walk.pen)
}

// The box c, and with it what a segment with that byte and those points draws.
fn add_segment(m: FixedMatrix, c: Edge, pen: Pen, byte: u8, curve: Curve) -> Edge
    requires { Limited m × (PenPlaced m pen × CurvePlaced m curve) }
    ensures { Wider result c × Around result (drawn_edges m pen (drawn_by pen byte curve)) }
{
    if returns(byte) {
        return add_closing(m, c, pen);
    }
    let from = m.apply(pen.current);
    let to = m.apply(curve.p3);
    if curve.degree == 1 {
        return grown(c, between(from, to));
    }
    let p1 = m.apply(curve.p1);
    let p2 = m.apply(curve.p2);
    let d = grown(c, between(from, p1));
    grown(d, between(p2, to))
}

// The same for the edge back to the start of the subpath. Where its ends are equal it adds nothing: before the first move both are the origin, which may
// be far from the path.
fn add_closing(m: FixedMatrix, c: Edge, pen: Pen) -> Edge
    requires { Limited m × PenPlaced m pen }
    ensures { Wider result c × Around result (drawn_edges m pen (line_to pen.start)) }
{
    if same_point(pen.current, pen.start) {
        return c;
    }
    let from = m.apply(pen.current);
    let to = m.apply(pen.start);
    grown(c, between(from, to))
}
