// Colours as floats and pixels as bytes: a channel's byte and back, and bytes premultiplied by their alpha.
#![tactic(auto)]

ghost use Rattle.std.specs.Prelude.{◌≡◌, ◌/◌, ◌≤◌};
ghost use Rattle.std.specs.Float.Ieee as Ieee;
ghost use Rattle.color.specs.Channels.{clamped, channel_byte, byte_channel, bytes_of_color, color_of_bytes, premultiply, premultiplied};

// A colour before conversion, not premultiplied.
#[derive(Clone, Copy, PartialEq)]
pub struct Color {
    pub r: f32,
    pub g: f32,
    pub b: f32,
    pub a: f32,
}

// Four bytes of a surface, or of a colour.
#[repr(C)]
#[derive(Clone, Copy, PartialEq, Eq)]
pub struct Pixel {
    pub r: u8,
    pub g: u8,
    pub b: u8,
    pub a: u8,
}

// The colour that four bytes set.
impl From<Pixel> for Color {
    ghost from_gives = { λ p c. c ≡ color_of_bytes p };

    fn from(p: Pixel) -> Color {
        Color {
            r: byte_channel(p.r),
            g: byte_channel(p.g),
            b: byte_channel(p.b),
            a: byte_channel(p.a),
        }
    }
}

impl Color {
    // Its four bytes, not premultiplied: rounded, so no `From`, which loses nothing.
    pub fn to_bytes(self) -> Pixel
        ensures { result ≡ bytes_of_color self }
    {
        Pixel {
            r: channel_byte(self.r),
            g: channel_byte(self.g),
            b: channel_byte(self.b),
            a: channel_byte(self.a),
        }
    }
}

impl Pixel {
    // f of each channel.
    pub fn map<F: Fn(u8) -> u8>(self, f: F) -> Pixel
        requires { F.IsAlwaysCallable f }
        ensures r { F.post f self.r result.r }
        ensures g { F.post f self.g result.g }
        ensures b { F.post f self.b result.b }
        ensures a { F.post f self.a result.a }
    {
        Pixel {
            r: f(self.r),
            g: f(self.g),
            b: f(self.b),
            a: f(self.a),
        }
    }

    // f of each channel of both.
    pub fn zip<F: Fn(u8, u8) -> u8>(self, other: Pixel, f: F) -> Pixel
        requires { F.IsAlwaysCallable f }
        ensures r { F.post f self.r other.r result.r }
        ensures g { F.post f self.g other.g result.g }
        ensures b { F.post f self.b other.b result.b }
        ensures a { F.post f self.a other.a result.a }
    {
        Pixel {
            r: f(self.r, other.r),
            g: f(self.g, other.g),
            b: f(self.b, other.b),
            a: f(self.a, other.a),
        }
    }

    // The pixel as a surface holds it.
    pub fn premultiplied(self) -> Pixel
        ensures { result ≡ premultiplied self }
    {
        let alpha = self.a;
        let p = self.map(|c| premultiply(c, alpha));
        Pixel { a: alpha, ..p }
    }
}

// A colour's channel as a byte.
pub fn channel_byte(v: f32) -> u8
    ensures { result ≡ channel_byte v }
{
    std::num::saturating_f32_to_u8(clamp(v) * 255.0 + 0.5)
}

// A byte as a colour's channel.
pub fn byte_channel(c: u8) -> f32
    ensures { result ≡ byte_channel c }
{
    (c as f32) / 255.0
}

// A channel times alpha, in 255ths.
pub fn premultiply(c: u8, a: u8) -> u8
    ensures { result ≡ premultiply c a }
{
    over_255((c as u16) * (a as u16) + 127)
}

// n / 255 by sums and shifts, the one way in which bytes are divided. Up to 65,279, where the quotient is 255, the sums fit 16 bits.
pub fn over_255(n: u16) -> u8
    requires { n ≤ 65279 }
    ensures { result ≡ n / 255 }
{
    let m = n + 1;
    ((m + (m >> 8)) >> 8) as u8
}

// v cut to 0..1, and a NaN to 0, as `clamped` says it; std's clamp keeps a NaN.
fn clamp(v: f32) -> f32
    ensures { result ≡ clamped v }
{
    if 0.0 < v {
        if v < 1.0 { v } else { 1.0 }
    } else {
        0.0
    }
}
