// The box of a path's edges, cut to the surface.
ghost use Rattle.std.specs.Prelude.{◌≡◌, ◌*◌, ◌<◌, ◌≤◌, pos, ◌+ℤ◌, length};
ghost use Rattle.fixed.specs.Floor.{floor_div};
ghost use Rattle.path.specs.Boxes.{outer, within, box_of};
ghost use Rattle.path.specs.Stored.{edges_of};
ghost use Rattle.outline.specs.Corners.{ordered_of, grown_by, corners, pixels_of};

use path::Edge;
use path::edges::load;
use rect::Rect;

// The box of the first n edges on a surface of that size.
pub fn bounds(edges: &[i32], n: usize, width: usize, height: usize) -> Rect
    requires { (n * 4 ≤ length edges.now) × ((width ≤ 1024) × (height ≤ 1024)) }
    ensures { result ≡ box_of width height (edges_of edges.now n) }
{
    if n == 0 {
        return Rect::EMPTY;
    }
    pixels(corners(edges, n), width, height)
}

// The pixels from a least corner to a greatest, on a surface of that size.
pub fn pixels(c: Edge, width: usize, height: usize) -> Rect
    requires { (width ≤ 1024) × (height ≤ 1024) }
    ensures { result ≡ pixels_of width height c }
{
    Rect {
        x0: first_pixel(c.x0, width),
        y0: first_pixel(c.y0, height),
        x1: past_pixel(c.x1, width),
        y1: past_pixel(c.y1, height),
    }
}

// The column or row of a least coordinate, on a surface of that size.
fn first_pixel(z: i32, size: usize) -> usize
    requires { size ≤ 1024 }
    ensures { result ≡ within size (floor_div z 256) }
{
    within(size, z >> 8)
}

// The one after that of a greatest.
fn past_pixel(z: i32, size: usize) -> usize
    requires { size ≤ 1024 }
    ensures { result ≡ within size (floor_div z 256 +ℤ pos 1) }
{
    within(size, (z >> 8) + 1)
}

// A column or row number, cut to 0..n.
fn within(n: usize, z: i32) -> usize
    requires { n ≤ 1024 }
    ensures { result ≡ within n z }
{
    (z.max(0) as usize).min(n)
}

// The lesser of two, or the greater.
fn outer_of(greater: bool, a: i32, b: i32) -> i32
    ensures { result ≡ outer greater a b }
{
    if greater { a.max(b) } else { a.min(b) }
}

// The edge from the least corner of the first n edges to the greatest.
pub fn corners(edges: &[i32], n: usize) -> Edge
    requires { (0 < n) × (n * 4 ≤ length edges.now) }
    ensures { result ≡ corners (edges_of edges.now n) }
{
    let mut c = ordered(load(edges, 0));
    for i in 1..n {
        c = grown(c, load(edges, i));
    }
    c
}

// From the least corner of an edge to the greatest.
fn ordered(e: Edge) -> Edge
    ensures { result ≡ ordered_of e }
{
    Edge {
        x0: outer_of(false, e.x0, e.x1),
        y0: outer_of(false, e.y0, e.y1),
        x1: outer_of(true, e.x0, e.x1),
        y1: outer_of(true, e.y0, e.y1),
    }
}

// From the least corner to the greatest, with one edge more.
pub fn grown(c: Edge, e: Edge) -> Edge
    ensures { result ≡ grown_by c e }
{
    let d = ordered(e);
    Edge {
        x0: outer_of(false, c.x0, d.x0),
        y0: outer_of(false, c.y0, d.y0),
        x1: outer_of(true, c.x1, d.x1),
        y1: outer_of(true, c.y1, d.y1),
    }
}
