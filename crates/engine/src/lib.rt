// Drawing a scene inside a rectangle of the surface. The way of a draw, from its bytes in the file to the surface:
//
//     draws    the scene: the background, but where the first draw hides it, then every draw in order; of a draw only its box, nothing of one that misses
//              the rectangle
//     edges    the draw's path as edges in the scratch
//     decode   the rest of the draw, decoded once: rule, scissors, blend mode, and its paint with its ramp and its colour transformation
//     rows     row after row: its coverage as runs of pixels that are covered alike, their paint, and both blended into the surface
//     shading  the paint of a row
//     spans    a gradient's row, made only where it is covered, or blended as a plain colour where it has one
//
// What a stage computes is in a crate of its own: `scene` reads the fields, `outline` makes the edges and their box, `coverage` counts a
// row's samples, `paint` colours a row, `transform` gives it other colours, `blend` stores it.
#![tactic(auto)]

ghost use Rattle.std.specs.Prelude.{◌+◌, ◌≤◌, ◌<◌};
ghost use Rattle.engine.specs.Rows.{Shaded, Scissors};
ghost use Rattle.engine.specs.Props.{shaded_prop, scissors_prop};

mod background;
pub mod decode;
pub mod draws;
pub mod edges;
pub mod rows;
pub mod shading;
pub mod spans;

use color::Pixel;
use paint::AnyGradient;
use transform::FixedTransform;

// How a draw is filled: the number of its edges, its fill rule, by how many scissors it is cut where scissoring is on, whether it is drawn through the
// mask, its blend mode, its paint. The fill rule and the mask are the draw's own, with no value beside them; the mode is a number as in `blend`.
#[derive(Clone, Copy)]
pub struct Style {
    pub edges: usize,
    pub nonzero: bool,
    pub scissors: Option<usize>,
    pub masked: bool,
    pub mode: u16,
    pub shade: Shade,
}

// A style with what it reads: the ramp of its paint, the bytes of its scissors, and the mask's.
#[derive(Clone, Copy)]
pub struct Brush<'a> {
    pub style: Style,
    pub ramp: &'a [u32],
    pub scissors: &'a [u8],
    pub mask: &'a [u8],
    ghost shaded: { Shaded style.shade ramp.now } by { shaded_prop style.shade ramp.now },
    ghost cut: { Scissors style scissors.now } by { scissors_prop style scissors.now },
}

// What a draw paints with, ready for its rows: a premultiplied pixel, already transformed, or a gradient.
#[derive(Clone, Copy)]
pub enum Shade {
    Solid(Pixel),
    Gradient(TintedGradient),
}

// A gradient, whose ramp lies in a lent run of numbers, and the colour transformation of its premultiplied pixels, where there is one.
#[derive(Clone, Copy)]
pub struct TintedGradient {
    pub gradient: AnyGradient,
    pub tint: Option<FixedTransform>,
}

// The pixels (x, y) to (x + length - 1, y), which lie on the largest surface.
#[derive(Clone, Copy)]
pub struct Strip {
    pub x: usize,
    pub y: usize,
    pub length: usize,
    ghost on_surface: { (y < 1024) × (x + length ≤ 1024) },
}
