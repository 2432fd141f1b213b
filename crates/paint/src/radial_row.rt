// The radial gradient's t along a row: A and Q go from pixel to pixel by sums, roots are guessed and held to be roots, and t is a product with D's
// reciprocal: no division a pixel.
ghost use Rattle.std.specs.Prelude.{◌≡◌, ◌+◌, ◌*◌, ◌/◌, ◌<◌, ◌≤◌, true, not, T, length, pos, ◌+ℤ◌, ◌-ℤ◌, ◌*ℤ◌, ◌<ℤ◌, is_nan, unsigned_abs};
ghost use Rattle.lists.specs.Lists.{tab};
ghost use Rattle.paint.specs.Gradient.{ramp_unit, mapped};
ghost use Rattle.paint.specs.Radial.{inside, radial_d, radial_t, focal_allowed};
ghost use Rattle.paint.specs.Circles.{LimitedCircle, ModeratePlace, ByProduct, place_from, place_at, next_place};
ghost use Rattle.paint.specs.Segments.{position_of};

use crate::guesses::guess_roots;
use crate::positions::position;
use crate::segments::BEHIND;
use crate::{Circle, Place, RadialGradient, gradient, radial};

// D up to which one product gives t on the ramp: A + q times 2^63 / D, rounded up, is t in parts of 2^47, and right as long as (A + q) D is below
// 2^47. On the ramp A + q is below D, so this is the largest D of which the square is below 2^47; no radius up to 215 pixels has a larger one.
const PRODUCT_LIMIT: u64 = 11863283;

// The same of a D that 256 divides, as it does where all of the circle is in whole pixels: t is a fraction over D / 256, and right as long as
// (A + q) D / 256 is below 2^47.
const WIDE_LIMIT: u64 = 189812480;

// 65,536 in these parts: 2^63.
const UNIT_IN_PARTS: u64 = 9223372036854775808;

// The positions of the pixels from (x, y) on, of a radius above 0.
pub fn radial_positions(g: RadialGradient, x: usize, y: usize, ks: &mut [u32])
    requires limited_circle { LimitedCircle g.circle × (focal_allowed g.circle ≡ true) × (pos 0 <ℤ g.circle.r) }
    requires ks_bound { (x + length ks.old ≤ 1024) × (y ≤ 1024) × (length ks.old ≤ 256) }
    ensures { ks.new ≡ tab (length ks.old) (λ i. position_of (mapped g.spread (radial_t g.circle (x + i) y))) }
{
    let c = g.circle;
    let d = radial::circle_d(c);
    let size = d as u64;
    if gradient::pads(g.spread) && has_product(size) {
        padded_positions(c, size, x, y, ks);
        return;
    }
    mapped_positions(g, d, x, y, ks);
}

// Whether one product gives t.
fn has_product(d: u64) -> bool
    ensures { result ≡ true → ByProduct d }
{
    d <= PRODUCT_LIMIT || (d % 256 == 0 && d <= WIDE_LIMIT)
}

// The positions of t as it is, which is where the spread pads, of a D of which one product gives t.
fn padded_positions(c: Circle, d: u64, x: usize, y: usize, ks: &mut [u32])
    requires limited_circle { LimitedCircle c × (focal_allowed c ≡ true) × (pos 0 <ℤ c.r) × (pos d ≡ radial_d c) × ByProduct d }
    requires ks_bound { (x + length ks.old ≤ 1024) × (y ≤ 1024) × (length ks.old ≤ 256) }
    ensures { ks.new ≡ tab (length ks.old) (λ i. position_of (radial_t c (x + i) y)) }
{
    let scale = UNIT_IN_PARTS / d + 1;
    let mut p = place_at(c, x, y);
    guess_roots(p.q, p.dq, p.ddq, most_root(c.r), ks);
    for i in 0..ks.len() {
        let q = radial::root_near(p.q, ks[i]);
        ks[i] = padded_position(radial::numerator(p.a, q), d, scale);
        p = next_place(p);
    }
}

// The position of t = 65,536 u / d, where scale is what t grows by with u, in parts of 2^47: a u below d is on the ramp, any other behind it.
fn padded_position(u: u64, d: u64, scale: u64) -> u32
    requires { (0 < d) × ByProduct d × (scale ≡ 9223372036854775808 / d + 1) }
    ensures { result ≡ position_of (pos (ramp_unit * u / d)) }
{
    if u < d {
        ((u * scale) >> 47) as u32 + 1
    } else {
        BEHIND
    }
}

// The positions of t as any spread maps it, of any D.
fn mapped_positions(g: RadialGradient, d: i64, x: usize, y: usize, ks: &mut [u32])
    requires limited_circle { LimitedCircle g.circle × (focal_allowed g.circle ≡ true) × (pos 0 <ℤ g.circle.r) × (d ≡ radial_d g.circle) }
    requires ks_bound { (x + length ks.old ≤ 1024) × (y ≤ 1024) × (length ks.old ≤ 256) }
    ensures { ks.new ≡ tab (length ks.old) (λ i. position_of (mapped g.spread (radial_t g.circle (x + i) y))) }
{
    let c = g.circle;
    let reciprocal = radial::reciprocal(d);
    let mut p = place_at(c, x, y);
    guess_roots(p.q, p.dq, p.ddq, most_root(c.r), ks);
    for i in 0..ks.len() {
        let q = radial::root_near(p.q, ks[i]);
        ks[i] = position_of(g.spread, radial::t_of(p.a, q, d, reciprocal));
        p = next_place(p);
    }
}

// The position of a t that is not negative: where the gradient pads, nothing else is asked of t.
fn position_of(spread: u32, t: u64) -> u32
    requires { t ≤ 140737488355328 }
    ensures { result ≡ position_of (mapped spread (pos t)) }
{
    if gradient::pads(spread) {
        return if t < 65536 { (t as u32) + 1 } else { BEHIND };
    }
    position(spread, t as i64)
}

// A number above every root: r, in 1/16 pixel, times a distance that is above all.
fn most_root(r: i64) -> f64
    requires { unsigned_abs r ≤ 16384 }
    ensures { T (not (is_nan result)) }
{
    std::num::nearest_i64_to_f64(65536 * r)
}

// A and Q at the pixel (x, y).
fn place_at(c: Circle, x: usize, y: usize) -> Place
    requires { LimitedCircle c × (focal_allowed c ≡ true) × (pos 0 <ℤ c.r) × (x ≤ 1024) × (y ≤ 1024) }
    ensures { result ≡ place_at c x y }
{
    place_from(
        c.r,
        radial::from_focus(x, c.fx),
        radial::from_focus(y, c.fy),
        radial::apart(c.fx, c.cx),
        radial::apart(c.fy, c.cy),
    )
}

fn place_from(r: i64, dx: i64, dy: i64, f: i64, g: i64) -> Place
    requires r_bound { (unsigned_abs r ≤ 16384) × (unsigned_abs dx ≤ 32776) × (unsigned_abs dy ≤ 32776) × (unsigned_abs f ≤ 32768) × (unsigned_abs g ≤ 32768) }
    requires pos_bound { pos 0 <ℤ inside r f g }
    ensures { result ≡ place_from r dx dy f g }
{
    let q = radial::under_root(r, dx, dy, f, g);
    Place {
        a: radial::along(dx, dy, f, g),
        q,
        dq: less(radial::under_root(r, dx + 16, dy, f, g), q),
        da: 16 * f,
        ddq: bend(r, g),
    }
}

// What Q's growth grows by: 512 (r² - g²).
fn bend(r: i64, g: i64) -> i64
    requires { (unsigned_abs r ≤ 16384) × (unsigned_abs g ≤ 32768) }
    ensures { result ≡ pos 512 *ℤ (r *ℤ r -ℤ g *ℤ g) }
{
    512 * (r * r - g * g)
}

fn next_place(p: Place) -> Place
    requires { ModeratePlace p }
    ensures { result ≡ next_place p }
{
    Place {
        a: sum(p.a, p.da),
        q: sum(p.q, p.dq),
        dq: sum(p.dq, p.ddq),
        da: p.da,
        ddq: p.ddq,
    }
}

fn sum(a: i64, b: i64) -> i64
    requires { (unsigned_abs a ≤ 2305843009213693952) × (unsigned_abs b ≤ 2305843009213693952) }
    ensures { result ≡ a +ℤ b }
{
    a + b
}

fn less(a: i64, b: i64) -> i64
    requires { (unsigned_abs a ≤ 2305843009213693952) × (unsigned_abs b ≤ 2305843009213693952) }
    ensures { result ≡ a -ℤ b }
{
    a - b
}
