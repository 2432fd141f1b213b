// The ramp of a draw, built once from the bytes of its stops into a lent run of numbers, as module ramp reads it: at most 32 stops and two ends.
ghost use Rattle.std.specs.Prelude.{◌≡◌, ◌+◌, ◌*◌, ◌<◌, ◌≤◌, [], ◌∷◌, ◌++◌, map, length};
ghost use Rattle.lists.specs.Lists.{upto};
ghost use Rattle.paint.specs.Ramps.{stop, kept_at, prepared, ramp_of};
ghost use Rattle.paint.specs.Buffers.{HeldRamp, Written, ramp_numbers, stops_in, with_first, grown, closed};

use crate::ramp::{pack, stop_color};
use crate::stops::{color_at, falls, offset_at};
use color::Pixel;

// How many numbers the longest ramp takes.
pub const RAMP_NUMBERS: usize = 68;

// The offset of a ramp's end.
const END: u32 = 65536;

// The ramp of n stops. Returns the number of its stops.
pub fn build_ramp(stops: &[u8], n: usize, premultiply: bool, ramp: &mut [u32]) -> usize
    requires n_bound { (n ≤ 32) × (20 * n ≤ length stops.now) }
    requires ramp_numbers_in_bounds { ramp_numbers ≤ length ramp.old }
    ensures written { Written ramp.old ramp.new result (ramp_of premultiply stops.now n) }
    ensures held_ramp { HeldRamp ramp.new result }
{
    if falls(stops, n) {
        return close_ramp(ramp, 0);
    }
    let count = keep_stops(stops, n, premultiply, ramp);
    close_ramp(ramp, count)
}

// The stops in range, with an end at 0.
fn keep_stops(stops: &[u8], n: usize, premultiply: bool, ramp: &mut [u32]) -> usize
    requires n_bound { (n ≤ 32) × (20 * n ≤ length stops.now) }
    requires ramp_numbers_in_bounds { ramp_numbers ≤ length ramp.old }
    ensures written { Written ramp.old ramp.new result (with_first (map (prepared premultiply) (upto n (kept_at stops.now)))) }
    ensures upper_bound { result ≤ n + 1 }
{
    let mut count = 0;
    for i in 0..n {
        count = keep_stop(stops, i, premultiply, ramp, count);
    }
    count
}

// Stop i after the first count, if it is in range. Returns the number of stops then.
fn keep_stop(stops: &[u8], i: usize, premultiply: bool, ramp: &mut [u32], count: usize) -> usize
    requires i_bound { (i < 32) × (20 * i + 20 ≤ length stops.now) × (count ≤ i + 1) }
    requires ramp_numbers_in_bounds { ramp_numbers ≤ length ramp.old }
    ensures written { Written ramp.old ramp.new result
        (grown (stops_in ramp.old count) (map (prepared premultiply) (kept_at stops.now i))) }
    ensures lower_bound { (count ≤ result) × (result ≤ i + 2) }
{
    let Ok(x) = offset_at(stops, i) else {
        return count;
    };
    let c = color_at(stops, i, premultiply);
    if count == 0 {
        return first_stop(ramp, x, c);
    }
    push(ramp, count, x, c);
    count + 1
}

// The first stop, after an end at 0 if it does not lie there itself.
fn first_stop(ramp: &mut [u32], offset: u32, color: Pixel) -> usize
    requires { ramp_numbers ≤ length ramp.old }
    ensures written { Written ramp.old ramp.new result (with_first (stop offset color ∷ [])) }
    ensures upper_bound { result ≤ 2 }
{
    if offset == 0 {
        push(ramp, 0, offset, color);
        return 1;
    }
    two_stops(ramp, color, offset, color);
    2
}

// The end at 65,536 if the last stop does not lie there; black and white if there is no stop. Returns the number of stops then.
fn close_ramp(ramp: &mut [u32], count: usize) -> usize
    requires { (count ≤ 33) × (ramp_numbers ≤ length ramp.old) }
    ensures written { Written ramp.old ramp.new result (closed (stops_in ramp.old count)) }
    ensures lower_bound { (count ≤ result) × (result ≤ 34) }
{
    if count == 0 {
        two_stops(ramp, gray(0), END, gray(255));
        return 2;
    }
    let last = count - 1;
    if ramp[last * 2] == END {
        return count;
    }
    let c = stop_color(ramp, last);
    push(ramp, count, END, c);
    count + 1
}

// An opaque gray: black, white.
fn gray(c: u8) -> Pixel
    ensures { result ≡ record { r = c; g = c; b = c; a = 255 } }
{
    Pixel {
        r: c,
        g: c,
        b: c,
        a: 255,
    }
}

// A stop at 0, and another.
fn two_stops(ramp: &mut [u32], color: Pixel, offset: u32, next: Pixel)
    requires { ramp_numbers ≤ length ramp.old }
    ensures { Written ramp.old ramp.new 2 (stop 0 color ∷ stop offset next ∷ []) }
{
    push(ramp, 0, 0, color);
    push(ramp, 1, offset, next);
}

// A stop after the first `at`.
fn push(ramp: &mut [u32], at: usize, offset: u32, color: Pixel)
    requires { (at < 34) × (ramp_numbers ≤ length ramp.old) }
    ensures { Written ramp.old ramp.new (at + 1) (stops_in ramp.old at ++ (stop offset color ∷ [])) }
{
    let b = at * 2;
    ramp[b] = offset;
    ramp[b + 1] = pack(color);
}
