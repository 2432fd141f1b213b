// A path's edges, segment by segment.
ghost use Rattle.std.specs.Prelude.{◌≡◌, Ok, ◌+◌, ◌*◌, ◌≤◌, ◌<◌, length};
ghost use Rattle.path.specs.Limits.{Limited};
ghost use Rattle.path.specs.Segments.{line_to, drawn_by, fault_to};
ghost use Rattle.path.specs.Curves.{transform_curve, drawn_edges, path_edges};
ghost use Rattle.path.specs.Stored.{put_edges};
ghost use Rattle.outline.specs.Asked.{Drawable, PenPlaced, CurvePlaced};

use crate::store::{store_curve, store_edge};
use path::commands::returns;
use path::tracing::trace;
use path::{Curve, FixedMatrix, Pen, Walk};

// The edges of an accepted path of n segments. How many there are.
pub fn flatten(
    m: FixedMatrix,
    segments: &[u8],
    n: usize,
    coordinates: &[u8],
    edges: &mut [i32],
) -> usize
    requires n_bound { (n ≤ 128) × (n ≤ length segments.now) }
    requires limited { Limited m × (fault_to m segments.now coordinates.now n ≡ Ok tt) }
    requires in_bounds { 8196 ≤ length edges.old }
    ensures edges_after { edges.new ≡ put_edges edges.old 0 (path_edges m segments.now coordinates.now n) }
    ensures value { result ≡ length (path_edges m segments.now coordinates.now n) }
{
    let mut walk = Walk::new();
    let mut count = 0;
    for i in 0..n {
        let byte = segments[i];
        let t = trace(coordinates, walk, byte);
        count = store_segment(m, edges, count, walk.pen, byte, t.curve);
        walk = t.walk;
    }
    store_closing(m, edges, count, walk.pen)
}

// The edges of a segment with that byte and those points go after the n that are there. The number of edges then.
pub fn store_segment(
    m: FixedMatrix,
    edges: &mut [i32],
    n: usize,
    pen: Pen,
    byte: u8,
    c: Curve,
) -> usize
    requires n_in_bounds { n * 4 + 64 ≤ length edges.old }
    requires limited { Limited m × (PenPlaced m pen × CurvePlaced m c) }
    ensures edges_after { edges.new ≡ put_edges edges.old n (drawn_edges m pen (drawn_by pen byte c)) }
    ensures value { result ≡ n + length (drawn_edges m pen (drawn_by pen byte c)) }
{
    if returns(byte) {
        return store_closing(m, edges, n, pen);
    }
    let from = m.apply(pen.current);
    let curve = transform_curve(m, c);
    store_curve(edges, n, from, curve)
}

// The edge back to the start of the subpath.
pub fn store_closing(m: FixedMatrix, edges: &mut [i32], n: usize, pen: Pen) -> usize
    requires n_in_bounds { n * 4 + 3 < length edges.old }
    requires limited { Limited m × PenPlaced m pen }
    ensures edges_after { edges.new ≡ put_edges edges.old n (drawn_edges m pen (line_to pen.start)) }
    ensures value { result ≡ n + length (drawn_edges m pen (line_to pen.start)) }
{
    let from = m.apply(pen.current);
    let to = m.apply(pen.start);
    store_edge(edges, n, from, to)
}

// A curve's points on the surface.
fn transform_curve(m: FixedMatrix, c: Curve) -> Curve
    requires { Limited m × CurvePlaced m c }
    ensures { (result ≡ transform_curve m c) × Drawable result }
{
    Curve {
        degree: c.degree,
        p1: m.apply(c.p1),
        p2: m.apply(c.p2),
        p3: m.apply(c.p3),
    }
}
