// Guesses of the roots along a row, by floating-point numbers in loops that become vector code. Nothing is promised of a guess: a root is held to be
// one by whole numbers. A float is read as bits, or converted, only where it is seen to be a number.
ghost use Rattle.std.specs.Prelude.{◌≡◌, ◌<◌, ◌≤◌, not, T, length, is_nan, unsigned_abs};

use crate::words::BLOCK;

// √½, and 3√½.
const HALF_ROOT: f64 = 0.7071067811865476;

const STEP: f64 = 2.121320343559643;

// No Q is larger: 2^60.
const LARGEST: f32 = 1152921504606846976.0;

// Half of the bits of h, taken from this, are those of a number near 1 / √2h.
const BITS: u32 = 1593268870;

// 2^52 - 1/2: of a sum with it the lowest bits are what was added, less a half and rounded.
const WHOLE: f64 = 4503599627370495.5;

// About the roots of Q at pixels one after the other, of the first of which it is q, and grows by dq, which grows by ddq; no root is above most.
pub fn guess_roots(q: i64, dq: i64, ddq: i64, most: f64, ks: &mut [u32])
    requires q_bound { (unsigned_abs q ≤ 2305843009213693952) × (unsigned_abs dq ≤ 2305843009213693952) × (unsigned_abs ddq ≤ 2305843009213693952) }
    requires t { T (not (is_nan most)) × (length ks.old ≤ 256) }
{
    let bend = ddq / 2;
    let slope = dq - bend;
    let mut inverses = [0.0; BLOCK];
    guess_with(q, slope, bend, most, ks, &mut inverses);
}

// The same with room for about 1 / √Q, where Q is a parabola.
fn guess_with(q: i64, slope: i64, bend: i64, most: f64, ks: &mut [u32], inverses: &mut [f32])
    requires q_bound { (unsigned_abs q < 4611686018427387904) × (unsigned_abs slope < 4611686018427387904) × (unsigned_abs bend < 4611686018427387904) }
    requires t { T (not (is_nan most)) × (length ks.old ≤ 256) × (length inverses.old ≡ 256) }
{
    let n = ks.len();
    guess_inverses(half(q), half(slope), half(bend), &mut inverses[0..n]);
    correct(
        std::num::nearest_i64_to_f64(q) * HALF_ROOT,
        std::num::nearest_i64_to_f64(slope) * HALF_ROOT,
        std::num::nearest_i64_to_f64(bend) * HALF_ROOT,
        most,
        &inverses[0..n],
        ks,
    );
}

// About half of n.
fn half(n: i64) -> f32
    requires { unsigned_abs n < 4611686018427387904 }
{
    let high = (n / 2147483648) as i32;
    let low = (n % 2147483648) as i32;
    std::num::nearest_i32_to_f32(high) * 1073741824.0 + std::num::nearest_i32_to_f32(low) * 0.5
}

// About 1 / √Q at pixels one after the other, where half of Q is a parabola.
fn guess_inverses(first: f32, slope: f32, bend: f32, inverses: &mut [f32])
    requires { length inverses.old ≤ 256 }
{
    for i in 0..inverses.len() {
        let x = (i as u16) as f32;
        inverses[i] = inverse_root(first + x * (slope + x * bend));
    }
}

// About 1 / √2h: a number near it, and two steps of Newton's.
fn inverse_root(h: f32) -> f32 {
    let v = capped(h, LARGEST);
    let a = f32::from_bits(BITS - (f32::to_bits(v) >> 1) % 1073741824);
    let b = a * (1.5 - v * a * a);
    b * (1.5 - v * b * b)
}

// x, where it is a number below most, which is one.
fn capped(x: f32, most: f32) -> f32
    requires { T (not (is_nan most)) }
    ensures { T (not (is_nan result)) }
{
    if x < most { x } else { most }
}

// About √Q at pixels one after the other, where Q times √½ is a parabola: a step of Newton's in twice as many bits, from about 1 / √Q.
fn correct(first: f64, slope: f64, bend: f64, most: f64, inverses: &[f32], ks: &mut [u32])
    requires { T (not (is_nan most)) × (length inverses.now ≡ length ks.old) × (length ks.old ≤ 256) }
{
    for i in 0..ks.len() {
        let x = (i as u16) as f64;
        ks[i] = root(first + x * (slope + x * bend), inverses[i], most);
    }
}

// About √Q, of which x is √½ times Q, and y about 1 / √Q.
fn root(x: f64, y: f32, most: f64) -> u32
    requires { T (not (is_nan most)) }
{
    let w = capped(y, 1.0) as f64;
    let s = x * w;
    whole(s * (STEP - s * w), most)
}

// About the greatest whole number that is not above r, where r is below most.
fn whole(r: f64, most: f64) -> u32
    requires { T (not (is_nan most)) }
{
    let u = lesser(r, most);
    (f64::to_bits(u + WHOLE) % 4294967296) as u32
}

// x, where it is a number below most, which is one.
fn lesser(x: f64, most: f64) -> f64
    requires { T (not (is_nan most)) }
    ensures { T (not (is_nan result)) }
{
    if x < most { x } else { most }
}
