// Floats from their bytes.
ghost use Rattle.std.specs.Prelude.{◌≡◌, ◌+◌, ◌≤◌, length};
ghost use Rattle.std.specs.Float.Ieee as Ieee;
ghost use Rattle.std.specs.Float.{binary32};
ghost use Rattle.fixed.specs.Floats.{real_of, real_at};
ghost use Rattle.fixed.specs.Patterns.{power_pattern};

use crate::little::u32_at;

// The bit of the sign in a bit pattern.
pub const SIGN: u32 = 0x80000000;

// The lowest bit of the exponent's field.
pub const EXPONENT: u32 = 0x00800000;

// The pattern of infinity. Without their signs, patterns are in the order of the sizes, and every NaN's is above this one.
pub const INFINITY: u32 = 0x7f800000;

// The pattern of 2^log.
pub fn power_pattern(log: u32) -> u32
    requires { log ≤ 15 }
    ensures { result ≡ power_pattern log }
{
    (127 + log) * EXPONENT
}

// The float of the four bytes from a place on, none where they are a NaN's.
pub fn f32_at(s: &[u8], at: usize) -> Option<f32>
    requires { at + 4 ≤ length s.now }
    ensures { result ≡ real_at s.now at }
{
    from_pattern(u32_at(s, at))
}

// The float with the bit pattern n, none for a NaN's. Without its sign bit, a NaN's pattern is above that of infinity.
fn from_pattern(n: u32) -> Option<f32>
    ensures { result ≡ real_of (Ieee.nan_bits binary32 n) (Ieee.of_bits binary32 n) }
{
    if n % SIGN <= INFINITY {
        Some(f32::from_bits(n))
    } else {
        None
    }
}
