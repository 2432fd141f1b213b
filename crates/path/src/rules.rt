// The rules of a path: its segments in turn, each accepted or refused with a code.
ghost use Rattle.std.specs.Prelude.{◌≡◌, ◌&&◌, ◌≤◌, length};
ghost use Rattle.path.specs.Segments.{in_sixteen_bits, in_range, curve_in_range, curve_on_grid};
ghost use Rattle.path.specs.Answers.{step_of, checked_to};
ghost use Rattle.path.specs.Limits.{Limited, NearCurve, Ready};

use crate::commands::{FIRST_ARC, LAST_ARC, split, taken};
use crate::plain::{is_plain, taken_by};
use crate::tracing::trace;
use crate::{Curve, FixedMatrix, PathFault, Point, Traced, Walk};
use codes::Code;

// How many coordinates the first n segments use, or the first fault among them.
pub fn check(
    m: FixedMatrix,
    segments: &[u8],
    coordinates: &[u8],
    n: usize,
) -> Result<usize, PathFault>
    requires { Limited m × (n ≤ length segments.now) }
    ensures { result ≡ checked_to m segments.now coordinates.now n }
{
    if is_plain(m, segments, n) {
        let used = taken_by(segments, n);
        if 2 * used <= coordinates.len() {
            return Ok(used);
        }
    }
    check_each(m, segments, coordinates, n)
}

// The same, point by point.
fn check_each(
    m: FixedMatrix,
    segments: &[u8],
    coordinates: &[u8],
    n: usize,
) -> Result<usize, PathFault>
    requires { Limited m × (n ≤ length segments.now) }
    ensures { result ≡ checked_to m segments.now coordinates.now n }
{
    let mut walk = Walk::new();
    for i in 0..n {
        match step(m, coordinates, walk, segments[i]) {
            Ok(t) => walk = t.walk,
            Err(code) => return Err(PathFault { code, segment: i }),
        }
    }
    Ok(walk.used)
}

// What one segment makes of the walk before it, or the code of its refusal.
pub fn step(m: FixedMatrix, coordinates: &[u8], walk: Walk, byte: u8) -> Result<Traced, Code>
    requires { Limited m × Ready coordinates.now walk }
    ensures { result ≡ step_of m coordinates.now walk byte }
{
    let command = split(byte).command;
    if FIRST_ARC <= command && command <= LAST_ARC {
        return Err(Code::UnsupportedPathFormat);
    }
    if LAST_ARC < command || coordinates.len() < 2 * (walk.used + taken(byte)) {
        return Err(Code::IllegalArgument);
    }
    let t = trace(coordinates, walk, byte);
    if accepts(m, t.curve) {
        Ok(t)
    } else {
        Err(Code::IllegalArgument)
    }
}

// Whether the points of a segment are in range, in the path and on the surface.
fn accepts(m: FixedMatrix, c: Curve) -> bool
    requires { Limited m }
    ensures { result ≡ (curve_in_range c && curve_on_grid m c) }
{
    curve_in_range(c) && curve_reached(m, c)
}

fn curve_in_range(c: Curve) -> bool
    ensures { result ≡ curve_in_range c }
{
    in_range(c.p1) && (in_range(c.p2) && in_range(c.p3))
}

fn in_range(p: Point) -> bool
    ensures { result ≡ in_range p }
{
    in_sixteen_bits(p.x) && in_sixteen_bits(p.y)
}

fn in_sixteen_bits(z: i32) -> bool
    ensures { result ≡ in_sixteen_bits z }
{
    -32768 <= z && z <= 32767
}

fn curve_reached(m: FixedMatrix, c: Curve) -> bool
    requires { Limited m × NearCurve c }
    ensures { result ≡ curve_on_grid m c }
{
    m.reaches(c.p1) && (m.reaches(c.p2) && m.reaches(c.p3))
}
