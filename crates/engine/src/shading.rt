// The paint of a row: one colour or a gradient's, under the draw's colour transformation.
ghost use Rattle.std.specs.Prelude.{◌≡◌, ◌+◌, ◌*◌, length};
ghost use Rattle.raster.specs.Surface.{run, pixel_in};
ghost use Rattle.paint.specs.Circles.{HeldGradient};
ghost use Rattle.engine.specs.Rows.{tinted_by, gradient_tinted, shade_at, Shaded};

use crate::{Shade, Strip, TintedGradient};
use transform::FixedTransform;

impl Shade {
    // The paint of each pixel of a strip, with the ramp of a gradient.
    pub fn row(self, ramp: &[u32], strip: Strip, paints: &mut [u8])
        requires shaded { Shaded self ramp.now }
        requires paints_len { length paints.old ≡ strip.length * 4 }
        ensures { paints.new ≡ run strip.length (λ i. shade_at self ramp.now (strip.x + i) strip.y) }
    {
        match self {
            Shade::Solid(p) => raster::fill_row(paints, strip.length, p),
            Shade::Gradient(g) => g.row(ramp, strip, paints),
        }
    }
}

impl TintedGradient {
    // The same of a gradient: its colours, and then the colour transformation of all of them.
    pub fn row(self, ramp: &[u32], strip: Strip, paints: &mut [u8])
        requires held_gradient { HeldGradient self.gradient ramp.now }
        requires paints_len { length paints.old ≡ strip.length * 4 }
        ensures { paints.new ≡ run strip.length (λ i. gradient_tinted self ramp.now (strip.x + i) strip.y) }
    {
        let gradient = self.gradient;
        let tint = self.tint;
        paint::row::gradient_row(gradient, ramp, strip.x, strip.y, strip.length, paints);
        tint_row(tint, paints, strip.length);
    }
}

// n pixels.
fn tint_row(tint: Option<FixedTransform>, row: &mut [u8], n: usize)
    requires { length row.old ≡ n * 4 }
    ensures { row.new ≡ run n (λ i. tinted_by tint (pixel_in row.old i)) }
{
    match tint {
        None => {}
        Some(t) => transform::transform_row(t, row, n),
    }
}
