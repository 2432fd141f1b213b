// Curves of degree 2 and 3, cut at k / 16.
ghost use Rattle.std.specs.Prelude.{◌≡◌, ◌≤◌, nat_abs};
ghost use Rattle.path.specs.Curves.{cut_point};
ghost use Rattle.outline.specs.Asked.{OnGrid, Drawable, Full, weights_of, quad_weights, cubic_weights, summed, blended};

use crate::Weights;
use path::{Curve, Point};

// The point of a curve from o at k / 16.
pub fn cut_point(o: Point, c: Curve, k: u32) -> Point
    requires { (OnGrid o × Drawable c) × ((2 ≤ c.degree) × (k ≤ 16)) }
    ensures { (result ≡ cut_point o c k) × OnGrid result }
{
    let w = weights(c.degree, k);
    Point {
        x: blend(c.degree, w, o.x, c.p1.x, c.p2.x, c.p3.x),
        y: blend(c.degree, w, o.y, c.p1.y, c.p2.y, c.p3.y),
    }
}

// One axis of it: the four numbers, each times its weight, over 16 to the power of the degree, to the nearest.
fn blend(degree: usize, w: Weights, a: i32, b: i32, c: i32, d: i32) -> i32
    requires full { Full degree w }
    requires a_bound { (nat_abs a ≤ 8388608) × (nat_abs b ≤ 8388608) × (nat_abs c ≤ 8388608) × (nat_abs d ≤ 8388608) }
    ensures { (result ≡ blended degree w a b c d) × (nat_abs result ≤ 8388608) }
{
    let sum = weigh(w, a, b, c, d);
    if degree == 2 {
        ((sum + 128) >> 8) as i32
    } else {
        ((sum + 2048) >> 12) as i32
    }
}

fn weigh(w: Weights, a: i32, b: i32, c: i32, d: i32) -> i64
    requires { (w.w0 ≤ 4096) × (w.w1 ≤ 4096) × (w.w2 ≤ 4096) × (w.w3 ≤ 4096) }
    ensures { result ≡ summed w a b c d }
{
    let w0 = w.w0 as i64;
    let w1 = w.w1 as i64;
    let w2 = w.w2 as i64;
    let w3 = w.w3 as i64;
    (a as i64) * w0 + (b as i64) * w1 + (c as i64) * w2 + (d as i64) * w3
}

// The weights at k / 16.
fn weights(degree: usize, k: u32) -> Weights
    requires { ((2 ≤ degree) × (degree ≤ 3)) × (k ≤ 16) }
    ensures { (result ≡ weights_of degree k) × Full degree result }
{
    let s = 16 - k;
    if degree == 2 {
        quad_weights(s, k)
    } else {
        cubic_weights(s, k)
    }
}

fn quad_weights(s: u32, k: u32) -> Weights
    requires { (s ≤ 16) × (k ≤ 16) }
    ensures { result ≡ quad_weights s k }
{
    Weights {
        w0: s * s,
        w1: 2 * (k * s),
        w2: k * k,
        w3: 0,
    }
}

fn cubic_weights(s: u32, k: u32) -> Weights
    requires { (s ≤ 16) × (k ≤ 16) }
    ensures { result ≡ cubic_weights s k }
{
    Weights {
        w0: s * s * s,
        w1: 3 * (k * s * s),
        w2: 3 * (k * k * s),
        w3: k * k * k,
    }
}
