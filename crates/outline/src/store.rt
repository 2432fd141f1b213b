// Edges in a lent run of numbers, four for each: C lends the scratch as such a run.
ghost use Rattle.std.specs.Prelude.{◌≡◌, ◌&&◌, ◌+◌, ◌*◌, ◌≤◌, ◌<◌, length};
ghost use Rattle.path.specs.Curves.{equal, edge_between, curve_edges};
ghost use Rattle.path.specs.Stored.{put_edge, put_edges};
ghost use Rattle.outline.specs.Asked.{OnGrid, Drawable};

use crate::curve::cut_point;
use crate::frame::between;
use path::{Curve, Edge, Point};

pub fn same_point(a: Point, b: Point) -> bool
    ensures { result ≡ (equal a.x b.x && equal a.y b.y) }
{
    a.x == b.x && a.y == b.y
}

// The edge from a to b goes after the n that are there, unless its ends are equal. The number of edges then.
pub fn store_edge(edges: &mut [i32], n: usize, a: Point, b: Point) -> usize
    requires { n * 4 + 3 < length edges.old }
    ensures edges_after { edges.new ≡ put_edges edges.old n (edge_between a b) }
    ensures value { result ≡ n + length (edge_between a b) }
{
    if same_point(a, b) {
        return n;
    }
    put(edges, n, between(a, b));
    n + 1
}

// An edge goes to place i.
pub fn put(edges: &mut [i32], i: usize, e: Edge)
    requires { i * 4 + 3 < length edges.old }
    ensures { edges.new ≡ put_edge edges.old i e }
{
    let at = i * 4;
    edges[at] = e.x0;
    edges[at + 1] = e.y0;
    edges[at + 2] = e.x1;
    edges[at + 3] = e.y1;
}

// The edges of a curve from o: one of a line, up to 16 of another.
pub fn store_curve(edges: &mut [i32], n: usize, o: Point, c: Curve) -> usize
    requires n_in_bounds { n * 4 + 64 ≤ length edges.old }
    requires on_grid { OnGrid o × Drawable c }
    ensures edges_after { edges.new ≡ put_edges edges.old n (curve_edges o c) }
    ensures value { result ≡ n + length (curve_edges o c) }
{
    if c.degree == 1 {
        return store_edge(edges, n, o, c.p3);
    }
    let mut count = n;
    let mut from = cut_point(o, c, 0);
    for k in 0..16 {
        let to = cut_point(o, c, k + 1);
        count = store_edge(edges, count, from, to);
        from = to;
    }
    count
}
