// A box that holds the points of a path by its coordinates alone: where each segment is absolute and gives whole points, the coordinates are x
// and y in turn, and the points need not be traced. Their box goes to the surface by its corners, so the matrix is applied four times to a
// path, not to every point.
ghost use Rattle.std.specs.Prelude.{◌≡◌, true, ◌&&◌, ◌+◌, ◌*◌, ◌≤◌, leb, eqb, length, get_or, nat_abs};
ghost use Rattle.fixed.specs.Little.{i16_at};
ghost use Rattle.path.specs.Limits.{Limited, Near};
ghost use Rattle.path.specs.Plain.{is_small};
ghost use Rattle.path.specs.Matrices.{transform};
ghost use Rattle.path.specs.Curves.{edge};
ghost use Rattle.outline.specs.Frames.{is_paired, paired_to, point_of, Framed, FramedBy, Takes, from_end, to_end, crossed, NearEnds};

use crate::bounds::grown;
use fixed::i16_at;
use path::{Edge, FixedMatrix, Point};

// Segment bytes, absolute: a move, and the two that give one coordinate.
const MOVE: u8 = 2;

const HORIZONTAL: u8 = 6;

const VERTICAL: u8 = 8;

// The largest size of a point on the surface.
pub const FAR: i32 = 8388608;

// The box of no points: its least corner lies far out, and its greatest on the other side.
pub const NOTHING: Edge = Edge {
    x0: FAR,
    y0: FAR,
    x1: -FAR,
    y1: -FAR,
};

// Whether the first of n segments is a move, and all of them give whole points, if they are plain.
pub fn is_paired(segments: &[u8], n: usize) -> bool
    requires { n ≤ length segments.now }
    ensures { result ≡ (leb 1 n && (eqb (get_or segments.now 0 0) 2 && paired_to segments.now n)) }
{
    1 <= n && segments[0] == MOVE && all_paired(segments, n)
}

// Whether none of the first n segments is horizontal or vertical.
fn all_paired(segments: &[u8], n: usize) -> bool
    requires { n ≤ length segments.now }
    ensures { result ≡ paired_to segments.now n }
{
    let mut paired = true;
    for i in 0..n {
        paired = still_paired(paired, segments[i]);
    }
    paired
}

fn still_paired(all: bool, byte: u8) -> bool
    ensures { result ≡ (is_paired byte && all) }
{
    byte != HORIZONTAL && byte != VERTICAL && all
}

// A box that holds the first n points of the coordinates, where the matrix takes them.
pub fn frame(m: FixedMatrix, coordinates: &[u8], n: usize) -> Edge
    requires { (Limited m × (is_small m ≡ true)) × (n * 4 ≤ length coordinates.now) }
    ensures { FramedBy m result coordinates.now n }
{
    corner_box(m, point_box(coordinates, n))
}

// The box of the first n points. Before the first its sides are the outermost numbers of 16 bits, the low ones on the high side.
fn point_box(coordinates: &[u8], n: usize) -> Edge
    requires { n * 4 ≤ length coordinates.now }
    ensures { NearEnds result × Framed result coordinates.now n }
{
    let mut c = Edge {
        x0: 32767,
        y0: 32767,
        x1: -32768,
        y1: -32768,
    };
    for i in 0..n {
        let p = point_at(coordinates, i);
        c = grown(c, between(p, p));
    }
    c
}

fn point_at(coordinates: &[u8], i: usize) -> Point
    requires { i * 4 + 4 ≤ length coordinates.now }
    ensures { (result ≡ point_of coordinates.now i) × Near result }
{
    Point {
        x: coordinate_at(coordinates, 4 * i),
        y: coordinate_at(coordinates, 4 * i + 2),
    }
}

fn coordinate_at(coordinates: &[u8], at: usize) -> i32
    requires { at + 2 ≤ length coordinates.now }
    ensures { (result ≡ i16_at coordinates.now at) × (nat_abs result ≤ 32768) }
{
    i16_at(coordinates, at) as i32
}

// A box that holds whatever the matrix takes from the box b: one axis of a point grows or falls with x alone and with y alone, so that it is
// outermost at a corner. Both diagonals have all corners.
fn corner_box(m: FixedMatrix, b: Edge) -> Edge
    requires { (Limited m × (is_small m ≡ true)) × NearEnds b }
    ensures { Takes m b result }
{
    let d = grown(NOTHING, moved(m, b));
    grown(d, moved(m, other_diagonal(b)))
}

// An edge where the matrix takes its ends.
fn moved(m: FixedMatrix, e: Edge) -> Edge
    requires { (Limited m × (is_small m ≡ true)) × NearEnds e }
    ensures { result ≡ edge (transform m (from_end e)) (transform m (to_end e)) }
{
    between(m.apply(from_end(e)), m.apply(to_end(e)))
}

fn from_end(e: Edge) -> Point
    ensures { result ≡ from_end e }
{
    Point { x: e.x0, y: e.y0 }
}

fn to_end(e: Edge) -> Point
    ensures { result ≡ to_end e }
{
    Point { x: e.x1, y: e.y1 }
}

fn other_diagonal(e: Edge) -> Edge
    ensures { result ≡ crossed e }
{
    Edge {
        x0: e.x0,
        y0: e.y1,
        x1: e.x1,
        y1: e.y0,
    }
}

pub fn between(a: Point, b: Point) -> Edge
    ensures { result ≡ edge a b }
{
    Edge {
        x0: a.x,
        y0: a.y,
        x1: b.x,
        y1: b.y,
    }
}
