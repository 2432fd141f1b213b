// A part of a ramp between two stops, found once and used for all the pixels whose positions lie in it: it has one division, a pixel none.
// A position is 0 before the ramp, t + 1 on it and 65,537 behind it.
ghost use Rattle.std.specs.Prelude.{◌≡◌, ◌+◌, ◌-◌, ◌<◌, ◌≤◌, max};
ghost use Rattle.paint.specs.Ramps.{mix_byte, mix_pixel};
ghost use Rattle.paint.specs.Buffers.{HeldRamp};
ghost use Rattle.paint.specs.Segments.{reciprocal_of, line_of, segment_of, Sound, Serves};

use crate::ramp::stop_color;
use crate::{Line, Segment};
use color::Pixel;

// The position behind the ramp.
pub const BEHIND: u32 = 65537;

// The line's unit, 2^40.
const PARTS: u64 = 1099511627776;

// The segment that serves k.
pub fn find(ramp: &[u32], count: usize, k: u32) -> Segment
    requires { HeldRamp ramp.now count × (k ≤ 65537) }
    ensures { Serves ramp.now count result × (result.low ≤ k) × (k < result.to) }
{
    if k == 0 {
        let c = stop_color(ramp, 0);
        return between(0, 0, 1, c, c);
    }
    if k == BEHIND {
        let c = stop_color(ramp, count - 1);
        return between(BEHIND, BEHIND, BEHIND + 1, c, c);
    }
    search(ramp, count, k - 1)
}

// The segment that serves t, from 0 to 65,535: between the first stop whose offset is above t, and the stop before it.
fn search(ramp: &[u32], count: usize, t: u32) -> Segment
    requires { HeldRamp ramp.now count × (t < 65536) }
    ensures { Serves ramp.now count result × (result.low ≤ t + 1) × (t + 1 < result.to) }
{
    let mut low = 0;
    for j in 1..count {
        let x = ramp[j * 2];
        if t < x {
            let i = j - 1;
            return between(
                low + 1,
                ramp[i * 2] + 1,
                x + 1,
                stop_color(ramp, i),
                stop_color(ramp, j),
            );
        }
        low = low.max(x);
    }
    let c = stop_color(ramp, count - 1);
    between(low + 1, low + 1, BEHIND, c, c)
}

fn between(low: u32, from: u32, to: u32, left: Pixel, right: Pixel) -> Segment
    requires { (from < to) × (to ≤ from + 65536) }
    ensures { result ≡ segment_of low from to left right }
{
    let d = to - from;
    let q = reciprocal(d);
    Segment {
        low,
        from,
        to,
        left,
        right,
        r: line(left.r, right.r, d, q),
        g: line(left.g, right.g, d, q),
        b: line(left.b, right.b, d, q),
        a: line(left.a, right.a, d, q),
    }
}

fn reciprocal(d: u32) -> u64
    requires { 0 < d }
    ensures { result ≡ reciprocal_of d }
{
    PARTS / (d as u64) + 1
}

fn line(ci: u8, cj: u8, d: u32, q: u64) -> Line
    requires { (0 < d) × (d ≤ 65536) × (q ≡ reciprocal_of d) }
    ensures { result ≡ line_of ci cj d }
{
    let e = d as u64;
    Line {
        first: (((ci as u64) * e + e / 2) * q) as i64,
        step: ((cj as i64) - (ci as i64)) * (q as i64),
    }
}

// The colour at k.
pub fn color_in(s: Segment, k: u32) -> Pixel
    requires { Sound s × (s.low ≤ k) × (k < s.to) }
    ensures { result ≡ mix_pixel s.from s.to k s.left s.right }
{
    let p = s.left;
    let q = s.right;
    Pixel {
        r: byte_in(s.r, s.from, s.to, k, p.r, q.r),
        g: byte_in(s.g, s.from, s.to, k, p.g, q.g),
        b: byte_in(s.b, s.from, s.to, k, p.b, q.b),
        a: byte_in(s.a, s.from, s.to, k, p.a, q.a),
    }
}

// The line's byte at k. What is behind k is for the contract.
fn byte_in(l: Line, from: u32, to: u32, k: u32, ci: u8, cj: u8) -> u8
    requires { (from ≤ k) × (k < to) × (to ≤ from + 65536) × (l ≡ line_of ci cj (to - from)) }
    ensures { result ≡ mix_byte from to k ci cj }
{
    ((l.step * ((k - from) as i64) + l.first) >> 40) as u8
}
