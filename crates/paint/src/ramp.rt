// The ramp's colour at t. The stops lie in a lent run of numbers, two to a stop: its offset, and its colour's four bytes as one number.
ghost use Rattle.std.specs.Prelude.{◌≡◌, ◌+◌, ◌-◌, ◌*◌, ◌<◌, ◌≤◌, length};
ghost use Rattle.paint.specs.Ramps.{mix_byte, mix_pixel, between, ramp_at};
ghost use Rattle.paint.specs.Buffers.{HeldRamp, packed, unpacked, stop_at, stops_from, stops_in};

use crate::gradient::RAMP_UNIT;
use color::Pixel;

// The colour at t.
pub fn ramp_color(ramp: &[u32], count: usize, t: i64) -> Pixel
    requires { HeldRamp ramp.now count }
    ensures { result ≡ ramp_at (stops_in ramp.now count) t }
{
    if t < 0 {
        return stop_color(ramp, 0);
    }
    if t < RAMP_UNIT {
        return color_between(ramp, count, t as u32);
    }
    stop_color(ramp, count - 1)
}

// The colour at t, from 0 to 65,535: between the first stop whose offset is above t, and the stop before it.
fn color_between(ramp: &[u32], count: usize, t: u32) -> Pixel
    requires { HeldRamp ramp.now count }
    ensures { result ≡ between (stop_at ramp.now 0) (stops_from ramp.now 1 (count - 1)) t }
{
    for j in 1..count {
        let x = ramp[j * 2];
        if t < x {
            let i = j - 1;
            return mix_pixel(ramp[i * 2], x, t, stop_color(ramp, i), stop_color(ramp, j));
        }
    }
    stop_color(ramp, count - 1)
}

// The colour of stop i.
pub fn stop_color(ramp: &[u32], i: usize) -> Pixel
    requires { i * 2 + 1 < length ramp.now }
    ensures { result ≡ (stop_at ramp.now i).color }
{
    unpack(ramp[i * 2 + 1])
}

// A colour's four bytes as one number, and back.
pub fn pack(c: Pixel) -> u32
    ensures { result ≡ packed c }
{
    (c.r as u32) + (c.g as u32) * 256 + (c.b as u32) * 65536 + (c.a as u32) * 16777216
}

pub fn unpack(n: u32) -> Pixel
    ensures { result ≡ unpacked n }
{
    Pixel {
        r: (n % 256) as u8,
        g: (n / 256 % 256) as u8,
        b: (n / 65536 % 256) as u8,
        a: (n / 16777216 % 256) as u8,
    }
}

fn mix_pixel(xi: u32, xj: u32, t: u32, ci: Pixel, cj: Pixel) -> Pixel
    requires { (xi ≤ t) × (t < xj) × (xj ≤ 65536) }
    ensures { result ≡ mix_pixel xi xj t ci cj }
{
    Pixel {
        r: mix_byte(xi, xj, t, ci.r, cj.r),
        g: mix_byte(xi, xj, t, ci.g, cj.g),
        b: mix_byte(xi, xj, t, ci.b, cj.b),
        a: mix_byte(xi, xj, t, ci.a, cj.a),
    }
}

// Between the channels ci at xi and cj at xj, to the nearest. Equal channels need no division.
fn mix_byte(xi: u32, xj: u32, t: u32, ci: u8, cj: u8) -> u8
    requires { (xi ≤ t) × (t < xj) × (xj ≤ 65536) }
    ensures { result ≡ mix_byte xi xj t ci cj }
{
    if ci == cj {
        return ci;
    }
    (((ci as u32) * (xj - t) + (cj as u32) * (t - xi) + (xj - xi) / 2) / (xj - xi)) as u8
}
