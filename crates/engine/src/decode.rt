// A draw's bytes, decoded once for all of its rows.
ghost use Rattle.std.specs.Prelude.{◌≡◌, ◌≤◌, ◌<◌, length};
ghost use Rattle.paint.specs.Buffers.{ramp_numbers};
ghost use Rattle.paint.specs.Circles.{HeldGradient};
ghost use Rattle.paint.specs.declared.Paint.TheVariants.{Linear, Radial};
ghost use Rattle.scene.specs.Layout.{draw_bytes};
ghost use Rattle.scene.specs.Fields.{paint_of};
ghost use Rattle.scene.specs.Accepted.{AcceptedFields};
ghost use Rattle.engine.specs.Rows.{style_of, tinted_by, gradient_tinted, shade_at, Shaded, Tints, Shades, MadeRamp, MadeLinear, MadeRadial};

use crate::{Shade, Style, TintedGradient};
use color::Pixel;
use paint::{AnyGradient, LinearGradient, LinearPoints, Paint, RadialGradient, RadialPoints};
use transform::FixedTransform;

// How the draw is filled, with a shade and n edges.
pub fn style(d: &[u8], n: usize, shade: Shade) -> Style
    requires { length d.now ≡ draw_bytes }
    ensures { result ≡ style_of d.now n shade }
{
    Style {
        edges: n,
        nonzero: scene::fields::non_zero_rule(d),
        scissors: scene::fields::scissoring(d).then_some(scene::fields::scissor_count(d)),
        masked: scene::fields::uses_mask(d),
        mode: scene::fields::blend_mode(d),
        shade,
    }
}

// What the draw paints with. A gradient's ramp is built in the run.
pub fn shade(d: &[u8], ramp: &mut [u32]) -> Shade
    requires d_len { (length d.now ≡ draw_bytes) × AcceptedFields d.now }
    requires ramp_numbers_in_bounds { ramp_numbers ≤ length ramp.old }
    ensures { Shades d.now result ramp.old ramp.new }
{
    let tint = tint(d);
    let paint = scene::fields::paint(d);
    match paint {
        Paint::Solid(c) => Shade::Solid(tinted(tint, paint::row::solid_pixel(c))),
        Paint::Linear(p) => Shade::Gradient(TintedGradient {
            gradient: AnyGradient::Linear(linear(d, p, ramp)),
            tint,
        }),
        Paint::Radial(p) => Shade::Gradient(TintedGradient {
            gradient: AnyGradient::Radial(radial(d, p, ramp)),
            tint,
        }),
    }
}

// The draw's colour transformation, where it is on.
fn tint(d: &[u8]) -> Option<FixedTransform>
    requires { length d.now ≡ draw_bytes }
    ensures { Tints d.now result }
{
    if scene::fields::transforms(d) {
        return Some(transform::fixed_transform(scene::fields::transform(d)));
    }
    None
}

// The draw's linear gradient.
fn linear(d: &[u8], p: LinearPoints, ramp: &mut [u32]) -> LinearGradient
    requires d_len { (length d.now ≡ draw_bytes) × AcceptedFields d.now × (paint_of d.now ≡ Linear p) }
    requires ramp_numbers_in_bounds { ramp_numbers ≤ length ramp.old }
    ensures { MadeLinear d.now p result ramp.old ramp.new }
{
    let count = make_ramp(d, ramp);
    LinearGradient {
        points: paint::gradient::fixed_points(p),
        spread: scene::fields::spread(d),
        premultiply: scene::fields::ramp_premultiplied(d),
        count,
    }
}

// The draw's radial gradient.
fn radial(d: &[u8], p: RadialPoints, ramp: &mut [u32]) -> RadialGradient
    requires d_len { (length d.now ≡ draw_bytes) × AcceptedFields d.now × (paint_of d.now ≡ Radial p) }
    requires ramp_numbers_in_bounds { ramp_numbers ≤ length ramp.old }
    ensures { MadeRadial d.now p result ramp.old ramp.new }
{
    let count = make_ramp(d, ramp);
    RadialGradient {
        circle: paint::radial::fixed_circle(p),
        spread: scene::fields::spread(d),
        premultiply: scene::fields::ramp_premultiplied(d),
        count,
    }
}

// The ramp of the draw's stops, built in the run. Returns the number of its stops.
fn make_ramp(d: &[u8], ramp: &mut [u32]) -> usize
    requires d_len { (length d.now ≡ draw_bytes) × AcceptedFields d.now }
    requires ramp_numbers_in_bounds { ramp_numbers ≤ length ramp.old }
    ensures { MadeRamp d.now result ramp.old ramp.new }
{
    paint::build::build_ramp(
        scene::fields::stops(d),
        scene::fields::stop_count(d),
        scene::fields::ramp_premultiplied(d),
        ramp,
    )
}

impl Shade {
    // The paint of one pixel, as whoever goes pixel by pixel asks for it.
    pub fn pixel(self, ramp: &[u32], x: usize, y: usize) -> Pixel
        requires shaded { Shaded self ramp.now }
        requires x_bound { (x < 1024) × (y < 1024) }
        ensures { result ≡ shade_at self ramp.now x y }
    {
        match self {
            Shade::Solid(p) => p,
            Shade::Gradient(g) => g.pixel(ramp, x, y),
        }
    }
}

impl TintedGradient {
    // The same of a gradient: its colour there, and then that pixel's colour transformation.
    fn pixel(self, ramp: &[u32], x: usize, y: usize) -> Pixel
        requires held_gradient { HeldGradient self.gradient ramp.now }
        requires x_bound { (x < 1024) × (y < 1024) }
        ensures { result ≡ gradient_tinted self ramp.now x y }
    {
        let gradient = self.gradient;
        let tint = self.tint;
        let mut color = [0u8; 4];
        paint::row::gradient_row(gradient, ramp, x, y, 1, &mut color);
        tinted(tint, raster::pixel(&color, 0))
    }
}

// A pixel, by the colour transformation.
pub fn tinted(tint: Option<FixedTransform>, p: Pixel) -> Pixel
    ensures { result ≡ tinted_by tint p }
{
    match tint {
        None => p,
        Some(t) => transform::transform_pixel(t, p),
    }
}
