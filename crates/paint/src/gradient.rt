// The linear gradient's t at a pixel and along a row, and the spread modes.
ghost use Rattle.std.specs.Prelude.{◌≡◌, ◌+◌, ◌*◌, ◌≤◌, true, not, ◌&&◌, pos, ◌-ℤ◌, ◌*ℤ◌, ◌<ℤ◌, ◌==◌, ◌≢◌, unsigned_abs};
ghost use Rattle.fixed.specs.Floats.{at_most, scaled};
ghost use Rattle.paint.specs.Gradient.{fixed_points, ramp_unit, centre, squared_length, projection, linear_t, spread_repeat, spread_reflect, mapped};
ghost use Rattle.paint.specs.Buffers.{LimitedPoints, Moderate, quotient_of, add_quotients, quotient_at, row_step};

use crate::{FixedPoints, LinearPoints, Quotient};

// t at the second point, where a ramp ends.
pub const RAMP_UNIT: i64 = 65536;

// What the numerator of t grows by from one pixel of a row to the next, for each 1/256 that the points lie apart: RAMP_UNIT times a pixel's 256.
const ONE_PIXEL: i64 = 16777216;

// Spread modes, by their numbers in the scene file. Any other pads.
const REPEAT: u32 = 0x1C01;

const REFLECT: u32 = 0x1C02;

// The points of a draw in 1/256 pixel.
pub fn fixed_points(p: LinearPoints) -> FixedPoints
    requires { (at_most 4096 p.x0 ≡ true) × (at_most 4096 p.y0 ≡ true) × (at_most 4096 p.x1 ≡ true) × (at_most 4096 p.y1 ≡ true) }
    ensures { (result ≡ fixed_points p) × LimitedPoints result }
{
    FixedPoints {
        x0: coordinate(p.x0),
        y0: coordinate(p.y0),
        x1: coordinate(p.x1),
        y1: coordinate(p.y1),
    }
}

// t at the pixel (x, y).
pub fn linear_t(p: FixedPoints, x: usize, y: usize) -> i64
    requires limited_points { LimitedPoints p }
    requires x_bound { (x ≤ 1024) × (y ≤ 1024) }
    ensures { result ≡ linear_t p x y }
{
    let d = squared_length(p);
    if d == 0 {
        return RAMP_UNIT;
    }
    fixed::floor_div(numerator(p, x, y), d)
}

// t as the stops are to be read at.
pub fn spread(mode: u32, t: i64) -> i64
    ensures { result ≡ mapped mode t }
{
    if mode == REPEAT {
        return fixed::floor_mod(t, RAMP_UNIT);
    }
    if mode == REFLECT {
        let rest = fixed::floor_mod(t, RAMP_UNIT);
        if fixed::floor_mod(fixed::floor_div(t, RAMP_UNIT), 2) == 1 {
            return RAMP_UNIT - rest;
        }
        return rest;
    }
    t
}

// Whether the spread pads.
pub fn pads(mode: u32) -> bool
    ensures { result ≡ (not (mode == spread_repeat) && not (mode == spread_reflect)) }
{
    mode != REPEAT && mode != REFLECT
}

fn coordinate(v: f32) -> i64
    requires { at_most 4096 v ≡ true }
    ensures { (result ≡ scaled 256 v) × (unsigned_abs result ≤ 1048576) }
{
    fixed::to_whole(v, 256)
}

// What t is 65,536ths of: the projection of the pixel's centre, 65,536 times.
fn numerator(p: FixedPoints, x: usize, y: usize) -> i64
    requires limited_points { LimitedPoints p }
    requires x_bound { (x ≤ 1024) × (y ≤ 1024) }
    ensures { result ≡ pos ramp_unit *ℤ projection p x y }
{
    RAMP_UNIT * (along(p.x0, p.x1, x) + along(p.y0, p.y1, y))
}

pub fn squared_length(p: FixedPoints) -> i64
    requires { LimitedPoints p }
    ensures { result ≡ squared_length p }
{
    square(p.x1, p.x0) + square(p.y1, p.y0)
}

// On one axis: the points' distance times the pixel centre's from the first.
fn along(a0: i64, a1: i64, x: usize) -> i64
    requires { (unsigned_abs a0 ≤ 1048576) × (unsigned_abs a1 ≤ 1048576) × (x ≤ 1024) }
    ensures { (result ≡ (a1 -ℤ a0) *ℤ (centre x -ℤ a0)) × (unsigned_abs result ≤ 2749047504896) }
{
    (a1 - a0) * ((256 * x + 128) as i64 - a0)
}

fn square(a: i64, b: i64) -> i64
    requires { (unsigned_abs a ≤ 1048576) × (unsigned_abs b ≤ 1048576) }
    ensures { (result ≡ (a -ℤ b) *ℤ (a -ℤ b)) × (unsigned_abs result ≤ 4398046511104) }
{
    (a - b) * (a - b)
}

// t at the pixel (x, y) of two points that do not coincide, with the rest of its division.
pub fn quotient_at(p: FixedPoints, x: usize, y: usize) -> Quotient
    requires limited_points { LimitedPoints p × (unsigned_abs (squared_length p) ≢ 0) }
    requires x_bound { (x ≤ 1024) × (y ≤ 1024) }
    ensures { result ≡ quotient_at p x y }
{
    quotient(numerator(p, x, y), squared_length(p))
}

// What t grows by from one pixel of a row to the next.
pub fn row_step(p: FixedPoints) -> Quotient
    requires { LimitedPoints p × (unsigned_abs (squared_length p) ≢ 0) }
    ensures { result ≡ row_step p }
{
    quotient(ONE_PIXEL * (p.x1 - p.x0), squared_length(p))
}

// n / d.
fn quotient(n: i64, d: i64) -> Quotient
    requires { pos 0 <ℤ d }
    ensures { result ≡ quotient_of n (unsigned_abs d) }
{
    Quotient {
        whole: fixed::floor_div(n, d),
        rest: fixed::floor_mod(n, d),
    }
}

// The sum of two quotients over d, by a carry and no division.
pub fn add_quotients(a: Quotient, b: Quotient, d: i64) -> Quotient
    requires { Moderate a × Moderate b × (unsigned_abs d ≤ 1152921504606846976) }
    ensures { result ≡ add_quotients a b d }
{
    let whole = a.whole + b.whole;
    let rest = a.rest + b.rest;
    if rest < d {
        Quotient { whole, rest }
    } else {
        Quotient {
            whole: whole + 1,
            rest: rest - d,
        }
    }
}
