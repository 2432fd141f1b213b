// One segment read from its bytes: its absolute points, and the walk after it.
ghost use Rattle.std.specs.Prelude.{◌≡◌, ◌+◌, ◌*◌, ◌<◌, ◌≤◌, length, nat_abs, ◌+ℤ◌};
ghost use Rattle.path.specs.Segments.{coordinate_from, pair_at, pen_after, curve_at, first_walk};
ghost use Rattle.path.specs.Answers.{traced_as, traced_by};
ghost use Rattle.path.specs.Limits.{Near, Supplied};

use crate::commands::{CLOSE, CUBIC, HORIZONTAL, LINE, MOVE, QUAD, SMOOTH_QUAD, split, taken};
use crate::{Curve, Pen, Point, Traced, Walk};

impl Walk {
    // Before the first segment.
    pub fn new() -> Walk
        ensures { result ≡ first_walk }
    {
        Walk {
            pen: Pen::new(),
            used: 0,
        }
    }
}

// The segment's points, and the walk after it.
pub fn trace(coordinates: &[u8], walk: Walk, byte: u8) -> Traced
    requires { Supplied coordinates.now walk byte }
    ensures { result ≡ traced_by coordinates.now walk byte }
{
    let s = split(byte);
    if s.command < QUAD {
        trace_line(coordinates, walk, byte)
    } else {
        trace_curve(coordinates, walk, byte)
    }
}

// A segment that draws a line: close, move, line, horizontal, vertical.
fn trace_line(coordinates: &[u8], walk: Walk, byte: u8) -> Traced
    requires { Supplied coordinates.now walk byte × (byte < 10) }
    ensures { result ≡ traced_by coordinates.now walk byte }
{
    let next = walk.used + taken(byte);
    let pen = line_pen(coordinates, walk, byte);
    let end = pen.current;
    traced(next, pen, Curve::line(end))
}

// The pen after it.
fn line_pen(coordinates: &[u8], walk: Walk, byte: u8) -> Pen
    requires { Supplied coordinates.now walk byte × (byte < 10) }
    ensures { result ≡ pen_after walk.pen byte (curve_at coordinates.now walk byte) }
{
    let pen = walk.pen;
    let used = walk.used;
    let base = pen.base(byte);
    let s = split(byte);
    let command = s.command;
    match command {
        CLOSE => pen.close(),
        MOVE => pen.move_to(pair_at(coordinates, base, used, 0)),
        LINE => pen.line_to(pair_at(coordinates, base, used, 0)),
        HORIZONTAL => pen.horizontal_to(offset(coordinates, base.x, used, 0)),
        _ => pen.vertical_to(offset(coordinates, base.y, used, 0)),
    }
}

// A segment that draws a curve: quad, cubic, and the smooth ones.
fn trace_curve(coordinates: &[u8], walk: Walk, byte: u8) -> Traced
    requires { Supplied coordinates.now walk byte × (10 ≤ byte) }
    ensures { result ≡ traced_by coordinates.now walk byte }
{
    let pen = walk.pen;
    let used = walk.used;
    let next = used + taken(byte);
    let base = pen.base(byte);
    let p = pair_at(coordinates, base, used, 0);
    let s = split(byte);
    let command = s.command;
    match command {
        QUAD => {
            let q = pair_at(coordinates, base, used, 2);
            traced(next, pen.quad_to(p, q), Curve::quad(p, q))
        }
        CUBIC => {
            let q = pair_at(coordinates, base, used, 2);
            let r = pair_at(coordinates, base, used, 4);
            traced(next, pen.cubic_to(p, q, r), Curve::cubic(p, q, r))
        }
        SMOOTH_QUAD => {
            let c = pen.reflected();
            traced(next, pen.smooth_quad_to(p), Curve::quad(c, p))
        }
        _ => {
            let c = pen.reflected();
            let q = pair_at(coordinates, base, used, 2);
            traced(next, pen.smooth_cubic_to(p, q), Curve::cubic(c, p, q))
        }
    }
}

fn traced(used: usize, pen: Pen, curve: Curve) -> Traced
    ensures { result ≡ traced_as used pen curve }
{
    Traced {
        walk: Walk { pen, used },
        curve,
    }
}

// The point at coordinates j and j + 1 of a segment, added to o.
fn pair_at(coordinates: &[u8], o: Point, used: usize, j: usize) -> Point
    requires { (2 * (used + j) + 4 ≤ length coordinates.now) × Near o }
    ensures { result ≡ pair_at o (coordinate_from coordinates.now used) j }
{
    Point {
        x: offset(coordinates, o.x, used, j),
        y: offset(coordinates, o.y, used, j + 1),
    }
}

// Coordinate j of a segment, added to o.
fn offset(coordinates: &[u8], o: i32, used: usize, j: usize) -> i32
    requires { (2 * (used + j) + 2 ≤ length coordinates.now) × (nat_abs o ≤ 32768) }
    ensures { result ≡ o +ℤ coordinate_from coordinates.now used j }
{
    o + fixed::i16_at(coordinates, 2 * (used + j)) as i32
}
