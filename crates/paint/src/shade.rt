// A gradient's colour at t, whatever its kind: the spread, the ramp's colour, and that premultiplied if the stops were not.
ghost use Rattle.std.specs.Prelude.{◌≡◌};
ghost use Rattle.paint.specs.Paints.{gradient_color};
ghost use Rattle.paint.specs.Buffers.{HeldRamp, stops_in};

use crate::gradient;
use crate::ramp::ramp_color;
use color::Pixel;

pub fn gradient_color(spread: u32, premultiply: bool, ramp: &[u32], count: usize, t: i64) -> Pixel
    requires { HeldRamp ramp.now count }
    ensures { result ≡ gradient_color spread premultiply (stops_in ramp.now count) t }
{
    let c = ramp_color(ramp, count, gradient::spread(spread, t));
    if premultiply { c } else { c.premultiplied() }
}
