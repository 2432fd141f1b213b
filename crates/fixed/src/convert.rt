// Floats to whole numbers, exactly: floor(scale v + 1/2), by whole numbers on the bit pattern of v.
//
// A pattern has a sign, an exponent field x and 23 bits t. Its value is t / 2^149 where x is 0, and else (2^23 + t) / 2^(150 - x).
ghost use Rattle.std.specs.Prelude.{◌≡◌, true, ◌*◌, ◌≤◌, ◌<◌, ◌^◌, pos, nat_abs, ◌+ℤ◌};
ghost use Rattle.std.specs.Float.Ieee as Ieee;
ghost use Rattle.std.specs.Float.{binary32};
ghost use Rattle.fixed.specs.Floor.{floor_div};
ghost use Rattle.fixed.specs.Floats.{nearest_of, scaled, at_most, offset_in};
ghost use Rattle.fixed.specs.Patterns.{size_bits, power_pattern};

use crate::OffsetError;
use crate::floats::{EXPONENT, SIGN, power_pattern};

// Whether v is a number, and at most 2^log in size.
pub fn at_most(v: f32, log: u32) -> bool
    requires { log ≤ 15 }
    ensures { result ≡ at_most (2 ^ log) v }
{
    !v.is_nan() && v.to_bits() % SIGN <= power_pattern(log)
}

// scale v to the nearest, of a v that is at most 2^15 in size.
pub fn to_whole(v: f32, scale: u32) -> i64
    requires { (scale ≤ 65536) × (at_most 32768 v ≡ true) }
    ensures { result ≡ scaled scale v }
{
    scale_pattern(v.to_bits(), scale)
}

// The offset of a stop, from 0 to 1, in 65,536ths.
pub fn stop_offset(v: f32) -> Result<u32, OffsetError>
    ensures { result ≡ offset_in v }
{
    if v.is_nan() {
        return Err(OffsetError::NotANumber);
    }
    if 0.0 <= v && at_most(v, 0) {
        Ok(to_whole(v, 65536) as u32)
    } else {
        Err(OffsetError::Outside)
    }
}

// scale v to the nearest, where n is the bit pattern of v, which is at most 32,768 in size.
fn scale_pattern(n: u32, scale: u32) -> i64
    requires n_bound { size_bits n ≤ power_pattern 15 }
    requires scale_bound { scale ≤ 65536 }
    ensures { result ≡ scaled scale (Ieee.of_bits binary32 n) }
{
    let x = (n % SIGN / EXPONENT) as u64;
    let t = n % EXPONENT;
    let neg = SIGN <= n;
    if x == 0 {
        nearest(neg, t, scale, 149)
    } else {
        nearest(neg, EXPONENT + t, scale, 150 - x)
    }
}

// ±scale m / 2^s to the nearest, a half up.
fn nearest(neg: bool, m: u32, scale: u32, s: u64) -> i64
    requires { (m < 16777216) × (scale ≤ 65536) }
    ensures { result ≡ nearest_of neg (scale * m) (2 ^ s) }
{
    if 42 <= s {
        return 0;
    }
    let twice = 2 * ((scale as i64) * (m as i64));
    if neg {
        half_up(0 - twice, s)
    } else {
        half_up(twice, s)
    }
}

// z / 2^(s + 1) to the nearest, a half up.
fn half_up(z: i64, s: u64) -> i64
    requires { (nat_abs z ≤ 2199023255552) × (s < 42) }
    ensures { result ≡ floor_div (z +ℤ pos (2 ^ s)) (2 * 2 ^ s) }
{
    (z + (1u64 << s) as i64) >> (s + 1)
}
