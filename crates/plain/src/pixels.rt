// A draw whose edges lie in the scratch, at each pixel of the surface: k, m and the paint of the pixel, and the blending step.
ghost use Rattle.std.specs.Prelude.{◌≡◌, true, cond, ◌*◌, ◌≤◌, ◌<◌, length, get_or};
ghost use Rattle.path.specs.Stored.{edges_of};
ghost use Rattle.coverage.specs.Scanline.{Outlined};
ghost use Rattle.engine.specs.Picture.{mask_at};
ghost use Rattle.engine.specs.Rows.{mask_with, shade_at, MaskFor};
ghost use Rattle.plain.specs.Asked.{step_at, pixelwise};

use crate::samples::Outline;
use crate::scissors::scissor_pixel;
use color::Pixel;
use engine::Brush;

// A draw, and the scratch in which its edges lie.
#[derive(Clone, Copy)]
pub struct LaidDraw<'a> {
    pub brush: Brush<'a>,
    pub scratch: &'a [i32],
    ghost outlined: { Outlined scratch.now brush.style.edges },
}

impl LaidDraw<'_> {
    // The draw at each pixel: pixel i of the surface is the pixel (i % width, i / width).
    pub fn draw(&self, surface: &mut [u8], width: usize, height: usize)
        requires surface_len { (length surface.old ≡ height * width * 4) × (width ≤ 1024) × (height ≤ 1024) }
        requires mask_for { MaskFor self.now.brush.style.masked (height * width) self.now.brush.mask.now }
        ensures { surface.new
            ≡ pixelwise width height
            (λ x y. step_at self.now.brush.style (edges_of self.now.scratch.now self.now.brush.style.edges) self.now.brush.scissors.now
            self.now.brush.ramp.now (mask_with self.now.brush.style (mask_at width self.now.brush.mask.now x y)) x y)
            surface.old }
    {
        let n = height * width;
        for i in 0..n {
            let m = self.mask_byte(i);
            let p = self.step(i % width, i / width, m, raster::pixel(surface, i));
            raster::put_pixel(surface, i, p);
        }
    }

    // m of pixel i: the mask's byte, or 255 without the mask.
    fn mask_byte(&self, i: usize) -> u8
        requires { self.now.brush.style.masked ≡ true → i < length self.now.brush.mask.now }
        ensures { result ≡ cond self.now.brush.style.masked (get_or self.now.brush.mask.now i 0) 255 }
    {
        if self.brush.style.masked {
            return self.brush.mask[i];
        }
        255
    }

    // What is stored at the pixel (x, y), which holds p.
    fn step(&self, x: usize, y: usize, m: u8, p: Pixel) -> Pixel
        requires { (x < 1024) × (y < 1024) }
        ensures { result
            ≡ step_at self.now.brush.style (edges_of self.now.scratch.now self.now.brush.style.edges) self.now.brush.scissors.now
            self.now.brush.ramp.now m x y p }
    {
        let style = self.brush.style;
        let outline = Outline {
            scratch: self.scratch,
            edges: style.edges,
            nonzero: style.nonzero,
        };
        let covered = outline.count_pixel(x, y);
        let k = scissor_pixel(self.brush.scissors, style.scissors, x, y, covered);
        let paint = self.paint(x, y);
        blend::step::composite_pixel(style.mode, k as u8, m, paint, p)
    }

    // The premultiplied paint of the pixel (x, y).
    fn paint(&self, x: usize, y: usize) -> Pixel
        requires { (x < 1024) × (y < 1024) }
        ensures { result ≡ shade_at self.now.brush.style.shade self.now.brush.ramp.now x y }
    {
        let shade = self.brush.style.shade;
        shade.pixel(self.brush.ramp, x, y)
    }
}
