// The box of a path without a place for all its edges: what was met is kept as one edge from its least corner to its greatest.
ghost use Rattle.std.specs.Prelude.{◌≡◌, Ok, ◌++◌, ◌*◌, ◌≤◌, length};
ghost use Rattle.path.specs.Boxes.{box_of};
ghost use Rattle.path.specs.Limits.{Limited};
ghost use Rattle.path.specs.Segments.{drawn_by, fault_to};
ghost use Rattle.path.specs.Curves.{drawn_edges, path_edges};
ghost use Rattle.path.specs.Stored.{edges_of};
ghost use Rattle.outline.specs.Asked.{PenPlaced, CurvePlaced};
ghost use Rattle.outline.specs.Alike.{Alike};

use crate::bounds::{bounds, corners};
use crate::flatten::{store_closing, store_segment};
use crate::store::put;
use path::tracing::trace;
use path::{Curve, FixedMatrix, Pen, Walk};
use rect::Rect;

// One edge, and the 16 of a segment.
const ENDS: usize = 68;

// The box of an accepted path of n segments, on a surface of that size.
pub fn path_bounds(
    m: FixedMatrix,
    segments: &[u8],
    n: usize,
    coordinates: &[u8],
    width: usize,
    height: usize,
) -> Rect
    requires n_bound { (n ≤ 128) × (n ≤ length segments.now) }
    requires limited { Limited m × (fault_to m segments.now coordinates.now n ≡ Ok tt) }
    requires width_bound { (width ≤ 1024) × (height ≤ 1024) }
    ensures { result ≡ box_of width height (path_edges m segments.now coordinates.now n) }
{
    let mut ends = [0i32; ENDS];
    let count = gather_path(m, segments, n, coordinates, &mut ends);
    bounds(&ends, count, width, height)
}

// At most two edges that have the path's box. How many there are.
fn gather_path(
    m: FixedMatrix,
    segments: &[u8],
    n: usize,
    coordinates: &[u8],
    ends: &mut [i32],
) -> usize
    requires n_bound { (n ≤ 128) × (n ≤ length segments.now) }
    requires limited { Limited m × (fault_to m segments.now coordinates.now n ≡ Ok tt) }
    requires in_bounds { 68 ≤ length ends.old }
    ensures alike { Alike (edges_of ends.new result) (path_edges m segments.now coordinates.now n) }
    ensures upper_bound { result ≤ 17 }
{
    let mut walk = Walk::new();
    let mut count = 0;
    for i in 0..n {
        let byte = segments[i];
        let t = trace(coordinates, walk, byte);
        count = gather_segment(m, ends, count, walk.pen, byte, t.curve);
        walk = t.walk;
    }
    store_closing(m, ends, count, walk.pen)
}

// The edges of a segment with that byte and those points join the n that are there.
fn gather_segment(m: FixedMatrix, ends: &mut [i32], n: usize, pen: Pen, byte: u8, c: Curve) -> usize
    requires n_bound { (n ≤ 1) × (68 ≤ length ends.old) }
    requires limited { Limited m × (PenPlaced m pen × CurvePlaced m c) }
    ensures alike { Alike (edges_of ends.new result) (edges_of ends.old n ++ drawn_edges m pen (drawn_by pen byte c)) }
    ensures upper_bound { result ≤ 1 }
{
    let all = store_segment(m, ends, n, pen, byte, c);
    merge(ends, all)
}

// One edge in place of the first n, if there are any.
fn merge(ends: &mut [i32], n: usize) -> usize
    requires { (n * 4 ≤ length ends.old) × (68 ≤ length ends.old) }
    ensures alike { Alike (edges_of ends.new result) (edges_of ends.old n) }
    ensures upper_bound { result ≤ 1 }
{
    if n == 0 {
        return 0;
    }
    let c = corners(ends, n);
    put(ends, 0, c);
    1
}
