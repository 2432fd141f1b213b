// The radial gradient's circle in whole numbers, the rule on its focal point, and the parts of t: floor(65,536(A + q) / D).
//
// Sizes: dx and dy are at most 32,792, f and g, the focal point less the centre, at most 32,768, so that A and the bracket of Q are below
// 2^32, and Q as it is computed below 2^63. Where the focal point is inside the circle, Q is A² + D(dx² + dy²), so not negative, and below 2^60.
ghost use Rattle.std.specs.Prelude.{◌≡◌, ◌+◌, ◌/◌, ◌<◌, ◌≤◌, true, pos, ◌+ℤ◌, ◌-ℤ◌, ◌*ℤ◌, ◌<ℤ◌, unsigned_abs};
ghost use Rattle.fixed.specs.Floats.{at_most, scaled};
ghost use Rattle.fixed.specs.Floor.{floor_div};
ghost use Rattle.fixed.specs.Roots as Roots;
ghost use Rattle.paint.specs.Gradient.{ramp_unit};
ghost use Rattle.paint.specs.Radial as Radial;
ghost use Rattle.paint.specs.Radial.{fixed_circle, from_focus, under_root, radial_d, focal_allowed};
ghost use Rattle.paint.specs.Circles.{LimitedCircle};

use crate::{Circle, RadialPoints};

// The circle of a draw in 1/16 pixel.
pub fn fixed_circle(p: RadialPoints) -> Circle
    requires cx_value { (at_most 1024 p.cx ≡ true) × (at_most 1024 p.cy ≡ true) }
    requires fx_value { (at_most 1024 p.fx ≡ true) × (at_most 1024 p.fy ≡ true) × (at_most 1024 p.r ≡ true) }
    ensures { (result ≡ fixed_circle p) × LimitedCircle result }
{
    Circle {
        cx: sixteenths(p.cx),
        cy: sixteenths(p.cy),
        fx: sixteenths(p.fx),
        fy: sixteenths(p.fy),
        r: sixteenths(p.r),
    }
}

fn sixteenths(v: f32) -> i64
    requires { at_most 1024 v ≡ true }
    ensures { (result ≡ scaled 16 v) × (unsigned_abs result ≤ 16384) }
{
    fixed::to_whole(v, 16)
}

// Whether the focal point is inside the circle, or there is no circle.
pub fn focal_allowed(c: Circle) -> bool
    requires { LimitedCircle c }
    ensures { result ≡ focal_allowed c }
{
    if 0 < c.r { 0 < circle_d(c) } else { true }
}

// D.
pub fn circle_d(c: Circle) -> i64
    requires { LimitedCircle c }
    ensures { result ≡ radial_d c }
{
    inside(c.r, apart(c.fx, c.cx), apart(c.fy, c.cy))
}

fn inside(r: i64, f: i64, g: i64) -> i64
    requires { (unsigned_abs r ≤ 16384) × (unsigned_abs f ≤ 32768) × (unsigned_abs g ≤ 32768) }
    ensures { result ≡ Radial.inside r f g }
{
    r * r - (f * f + g * g)
}

// The focal point less the centre, on one axis.
pub fn apart(f: i64, c: i64) -> i64
    requires { (unsigned_abs f ≤ 16384) × (unsigned_abs c ≤ 16384) }
    ensures { (result ≡ f -ℤ c) × (unsigned_abs result ≤ 32768) }
{
    f - c
}

// A pixel's centre less the focal point, on one axis.
pub fn from_focus(x: usize, f: i64) -> i64
    requires { (x ≤ 1024) × (unsigned_abs f ≤ 16384) }
    ensures { (result ≡ from_focus x f) × (unsigned_abs result ≤ 32776) }
{
    (16 * x + 8) as i64 - f
}

// A.
pub fn along(dx: i64, dy: i64, f: i64, g: i64) -> i64
    requires { (unsigned_abs dx ≤ 32792) × (unsigned_abs dy ≤ 32792) × (unsigned_abs f ≤ 32768) × (unsigned_abs g ≤ 32768) }
    ensures { result ≡ Radial.along dx dy f g }
{
    dx * f + dy * g
}

// The bracket of Q that is squared.
fn across(dx: i64, dy: i64, f: i64, g: i64) -> i64
    requires { (unsigned_abs dx ≤ 32792) × (unsigned_abs dy ≤ 32792) × (unsigned_abs f ≤ 32768) × (unsigned_abs g ≤ 32768) }
    ensures { (result ≡ Radial.across dx dy f g) × (unsigned_abs result ≤ 2149056512) }
{
    dx * g - dy * f
}

// Q.
pub fn under_root(r: i64, dx: i64, dy: i64, f: i64, g: i64) -> i64
    requires { (unsigned_abs r ≤ 16384) × (unsigned_abs dx ≤ 32792) × (unsigned_abs dy ≤ 32792) × (unsigned_abs f ≤ 32768) × (unsigned_abs g ≤ 32768) }
    ensures { result ≡ under_root r dx dy f g }
{
    let b = across(dx, dy, f, g);
    r * r * (dx * dx + dy * dy) - b * b
}

// q of a Q, from a guess, which may be any number: where it is the root, its square is at most Q, by twice itself at the most.
pub fn root_near(q: i64, guess: u32) -> u64
    requires { (q ≡ pos (unsigned_abs q)) × (unsigned_abs q < 1152921504606846976) }
    ensures { result ≡ Roots.isqrt (unsigned_abs q) }
{
    let n = q as u64;
    let g = guess as u64;
    let rest = std::num::wrapping_sub_u64(n, g * g);
    if rest <= 2 * g {
        return g;
    }
    fixed::isqrt_near(n, g)
}

// 2^47 / D, or 2^33 - 1 if that is less: what t is guessed by.
pub fn reciprocal(d: i64) -> u64
    requires { (pos 0 <ℤ d) × (unsigned_abs d ≤ 268435456) }
    ensures { result < 8589934592 }
{
    (140737488355328 / (d as u64)).min(8589934591)
}

// t of A, q and D, which is not negative: the product with D's reciprocal is mostly t.
pub fn t_of(a: i64, q: u64, d: i64, reciprocal: u64) -> u64
    requires { (unsigned_abs a ≤ q) × (q ≤ 1073741824) × (pos 0 <ℤ d) × (unsigned_abs d ≤ 268435456) × (reciprocal < 8589934592) }
    ensures { (pos result ≡ floor_div (pos ramp_unit *ℤ (a +ℤ pos q)) (unsigned_abs d)) × (result ≤ 140737488355328) }
{
    let u = numerator(a, q);
    quotient_near(65536 * u, d as u64, u * reciprocal / 2147483648)
}

// A + q, which is not negative.
pub fn numerator(a: i64, q: u64) -> u64
    requires { (unsigned_abs a ≤ q) × (q ≤ 1073741824) }
    ensures { (pos result ≡ a +ℤ pos q) × (result ≤ 2147483648) }
{
    (a + q as i64) as u64
}

// n / d, from a guess of at most 2^33, right or not.
fn quotient_near(n: u64, d: u64, guess: u64) -> u64
    requires { (0 < d) × (d ≤ 268435456) × (guess ≤ 8589934592) }
    ensures { result ≡ n / d }
{
    let rest = std::num::wrapping_sub_u64(n, guess * d);
    if rest < d {
        return guess;
    }
    n / d
}
