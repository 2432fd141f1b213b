// Which pixels of a part of a row may lie inside a radial gradient's circle: on and outside it t is at least 65,536, so that where the spread pads
// no root is needed there. Lengths are in 1/16 pixel, as a circle's are.
ghost use Rattle.std.specs.Prelude.{◌≡◌, ◌+◌, ◌≤◌, true, pos, ◌-ℤ◌, ◌*ℤ◌, ◌<ℤ◌, int_lt, unsigned_abs};
ghost use Rattle.paint.specs.Radial.{from_focus, focal_allowed};
ghost use Rattle.paint.specs.Circles.{LimitedCircle, Enclosing, RampWithin, first_from, columns_from};

use crate::{Circle, Columns, radial};

// A part of fewer pixels is not worth the search.
const FEW: usize = 32;

// Nor are so many pixels outside at each of its ends.
const SPARED: usize = 8;

// Columns of the n pixels from (x, y) on: t of all others is at least 65,536. Only where it saves something are they fewer than n.
pub fn inner_columns(c: Circle, x: usize, y: usize, n: usize) -> Columns
    requires limited_circle { LimitedCircle c × (focal_allowed c ≡ true) × (pos 0 <ℤ c.r) }
    requires n_bound { (x + n ≤ 1024) × (y ≤ 1024) }
    ensures { RampWithin c x y n result }
{
    if n < FEW {
        return Columns { from: 0, to: n };
    }
    if is_inside(c, x + SPARED, y) && is_inside(c, x + n - 1 - SPARED, y) {
        return Columns { from: 0, to: n };
    }
    chord(
        c.r,
        radial::from_focus(x, c.cx),
        radial::from_focus(y, c.cy),
        n,
    )
}

// Whether the centre of the pixel (x, y) lies inside.
fn is_inside(c: Circle, x: usize, y: usize) -> bool
    requires { LimitedCircle c × (x ≤ 1024) × (y ≤ 1024) }
    ensures { result ≡ int_lt (from_focus x c.cx *ℤ from_focus x c.cx) (c.r *ℤ c.r -ℤ from_focus y c.cy *ℤ from_focus y c.cy) }
{
    let ex = radial::from_focus(x, c.cx);
    let rest = less_squared(c.r, radial::from_focus(y, c.cy));
    ex * ex < rest
}

// Columns of n pixels, of which the first lies (ex, ey) from the centre: all others lie on or outside the circle.
fn chord(r: i64, ex: i64, ey: i64, n: usize) -> Columns
    requires { (unsigned_abs r ≤ 16384) × (unsigned_abs ex ≤ 32776) × (unsigned_abs ey ≤ 32776) × (pos 0 <ℤ r) }
    ensures { Enclosing r ex ey n result }
{
    let rest = less_squared(r, ey);
    if rest <= 0 {
        return Columns { from: n, to: n };
    }
    columns_from(ex, fixed::isqrt_near(rest as u64, r as u64), n)
}

// r² - e².
fn less_squared(r: i64, e: i64) -> i64
    requires { (unsigned_abs r ≤ 16384) × (unsigned_abs e ≤ 32776) }
    ensures { (result ≡ r *ℤ r -ℤ e *ℤ e) × (unsigned_abs result ≤ 1342701632) }
{
    r * r - e * e
}

// The columns from s left of the centre to s right of it.
fn columns_from(ex: i64, s: u64, n: usize) -> Columns
    requires { (unsigned_abs ex ≤ 32776) × (s ≤ 1073741824) }
    ensures { result ≡ columns_from ex s n }
{
    let reach = s as i64;
    Columns {
        from: first_from(-reach - ex, n),
        to: first_from(reach - ex + 1, n),
    }
}

// The first of n pixels that lies z or more behind the first.
fn first_from(z: i64, n: usize) -> usize
    requires { unsigned_abs z ≤ 2147483648 }
    ensures { result ≡ first_from z n }
{
    if z <= 0 {
        return 0;
    }
    ((z as usize + 15) / 16).min(n)
}
