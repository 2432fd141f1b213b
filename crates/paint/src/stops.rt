// The stops as given, from their bytes: 20 to a stop, five f32, offset, R, G, B, A.
ghost use Rattle.std.specs.Prelude.{◌≡◌, ◌+◌, ◌-◌, ◌*◌, ◌≤◌, length, if◌then◌else◌};
ghost use Rattle.std.specs.Float.Ieee as Ieee;
ghost use Rattle.fixed.specs.Floats.{f32_at, offset_in};
ghost use Rattle.color.specs.Channels.{channel_byte, premultiplied};
ghost use Rattle.paint.specs.Ramps.{offset_at, color_at, falls_in};
ghost use Rattle.paint.specs.Buffers.{less_real};

use color::Pixel;
use fixed::OffsetError;

const STOP_BYTES: usize = 20;

// Whether an offset falls below the one before it.
pub fn falls(stops: &[u8], n: usize) -> bool
    requires { 20 * n ≤ length stops.now }
    ensures { result ≡ falls_in stops.now (n - 1) }
{
    let mut fell = false;
    for i in 1..n {
        fell |= falls_at(stops, i);
    }
    fell
}

fn falls_at(stops: &[u8], i: usize) -> bool
    requires { (1 ≤ i) × (20 * i + 4 ≤ length stops.now) }
    ensures { result ≡ Ieee.lt (offset_at stops.now i) (offset_at stops.now (i - 1)) }
{
    less(
        fixed::f32_at(stops, STOP_BYTES * i),
        fixed::f32_at(stops, STOP_BYTES * (i - 1)),
    )
}

// a < b, which no NaN is.
fn less(a: Option<f32>, b: Option<f32>) -> bool
    ensures { result ≡ less_real a b }
{
    match (a, b) {
        (Some(x), Some(y)) => x < y,
        _ => false,
    }
}

// What the offset of stop i becomes.
pub fn offset_at(stops: &[u8], i: usize) -> Result<u32, OffsetError>
    requires { 20 * i + 4 ≤ length stops.now }
    ensures { result ≡ offset_in (offset_at stops.now i) }
{
    match fixed::f32_at(stops, STOP_BYTES * i) {
        Some(v) => fixed::stop_offset(v),
        None => Err(OffsetError::NotANumber),
    }
}

// The colour of stop i, premultiplied if asked.
pub fn color_at(stops: &[u8], i: usize, premultiply: bool) -> Pixel
    requires { 20 * i + 20 ≤ length stops.now }
    ensures { result ≡ (if premultiply then premultiplied (color_at stops.now i) else color_at stops.now i) }
{
    let at = STOP_BYTES * i;
    let c = Pixel {
        r: channel_at(stops, at + 4),
        g: channel_at(stops, at + 8),
        b: channel_at(stops, at + 12),
        a: channel_at(stops, at + 16),
    };
    if premultiply {
        return c.premultiplied();
    }
    c
}

// A channel's byte, 0 for a NaN.
fn channel_at(stops: &[u8], at: usize) -> u8
    requires { at + 4 ≤ length stops.now }
    ensures { result ≡ channel_byte (f32_at stops.now at) }
{
    match fixed::f32_at(stops, at) {
        Some(v) => color::channel_byte(v),
        None => 0,
    }
}
