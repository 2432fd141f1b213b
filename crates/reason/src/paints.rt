// The paint of a draw at one pixel, as it is blended.
ghost use Rattle.std.specs.Prelude.{◌≡◌, ◌<◌, length};
ghost use Rattle.scene.specs.Layout.{draw_bytes};
ghost use Rattle.scene.specs.Accepted.{AcceptedFields};
ghost use Rattle.engine.specs.Picture.{draw_paint};

use color::Pixel;
use paint::build::RAMP_NUMBERS;

// The paint's premultiplied bytes at the pixel (x, y).
pub fn paint_at(d: &[u8], x: usize, y: usize) -> Pixel
    requires d_len { (length d.now ≡ draw_bytes) × AcceptedFields d.now }
    requires x_bound { (x < 1024) × (y < 1024) }
    ensures { result ≡ draw_paint d.now x y }
{
    let mut ramp = [0u32; RAMP_NUMBERS];
    let shade = engine::decode::shade(d, &mut ramp);
    shade.pixel(&ramp, x, y)
}
