// A draw's fields, of its 2,032 bytes, and of the scene's edition where they depend on it.
ghost use Rattle.std.specs.Prelude.{◌≡◌, true, ◌+◌, ◌≤◌, ◌<◌, length};
ghost use Rattle.fixed.specs.Floats.{f32_at};
ghost use Rattle.paint.specs.Paints.{paint_type};
ghost use Rattle.path.specs.Matrices.{matrix_in_limits, fixed_matrix};
ghost use Rattle.scene.specs.Layout.{draw_bytes, coordinates_at};
ghost use Rattle.scene.specs.Fields as Fields;
ghost use Rattle.scene.specs.Fields.{flags_of, bit, non_zero_rule, ramp_premultiplied, uses_mask, blend_of, paint_type_of, spread_of};
ghost use Rattle.scene.specs.Fields.{segment_count, scissor_count, stop_count};
ghost use Rattle.scene.specs.Fields.{matrix_of, color_of, linear_of, is_radial, radial_of, paint_of, transform_of};
ghost use Rattle.scene.specs.Fields.{scissors_of, first_stop_at, stops_of, segments_of, coordinates_of};
ghost use Rattle.scene.specs.Rules.{is_paint};

use crate::layout::{
    BLEND_AT, COLOR_AT, DRAW_BYTES, FLAGS_AT, LINEAR_POINTS_AT, MATRIX_AT, NEW_COORDINATES_AT,
    NEW_EDITION, OLD_COORDINATES_AT, PAINT_LINEAR, PAINT_RADIAL, PAINT_TYPE_AT, RADIAL_AT,
    SCISSOR_COUNT_AT, SCISSORS_AT, SEGMENT_COUNT_AT, SEGMENTS_AT, SEGMENTS_END, SPREAD_AT,
    STOP_BYTES, STOP_COUNT_AT, STOPS_AT, TRANSFORM_AT, TRANSLATION_AT,
};
use color::Color;
use fixed::{f32_at, u16_at};
use paint::{LinearPoints, Paint, RadialPoints};
use path::{FixedMatrix, Matrix};
use transform::ColorTransform;

// Whether the fill rule is non-zero; else it is even-odd.
pub fn non_zero_rule(d: &[u8]) -> bool
    requires { length d.now ≡ draw_bytes }
    ensures { result ≡ non_zero_rule d.now }
{
    flag(d, 0)
}

// Whether scissoring is on.
pub fn scissoring(d: &[u8]) -> bool
    requires { length d.now ≡ draw_bytes }
    ensures { result ≡ Fields.scissoring d.now }
{
    flag(d, 1)
}

// Whether the ramp's stops are premultiplied before interpolation.
pub fn ramp_premultiplied(d: &[u8]) -> bool
    requires { length d.now ≡ draw_bytes }
    ensures { result ≡ ramp_premultiplied d.now }
{
    flag(d, 2)
}

// Whether the draw is drawn through the mask.
pub fn uses_mask(d: &[u8]) -> bool
    requires { length d.now ≡ draw_bytes }
    ensures { result ≡ uses_mask d.now }
{
    flag(d, 3)
}

// Whether the draw's paint is transformed. Only edition 1 lets it be.
pub fn transforms(d: &[u8]) -> bool
    requires { length d.now ≡ draw_bytes }
    ensures { result ≡ Fields.transforms d.now }
{
    flag(d, 4)
}

// Whether bit n of the flags is set.
fn flag(d: &[u8], n: u32) -> bool
    requires { (length d.now ≡ draw_bytes) × (n < 16) }
    ensures { result ≡ bit n (flags_of d.now) }
{
    (u16_at(d, FLAGS_AT) >> n) & 1 == 1
}

pub fn blend_mode(d: &[u8]) -> u16
    requires { length d.now ≡ draw_bytes }
    ensures { result ≡ blend_of d.now }
{
    u16_at(d, BLEND_AT) as u16
}

pub fn paint_type(d: &[u8]) -> u32
    requires { length d.now ≡ draw_bytes }
    ensures { result ≡ paint_type_of d.now }
{
    u16_at(d, PAINT_TYPE_AT)
}

pub fn is_radial(d: &[u8]) -> bool
    requires { length d.now ≡ draw_bytes }
    ensures { result ≡ is_radial d.now }
{
    paint_type(d) == PAINT_RADIAL
}

pub fn spread(d: &[u8]) -> u32
    requires { length d.now ≡ draw_bytes }
    ensures { result ≡ spread_of d.now }
{
    u16_at(d, SPREAD_AT)
}

pub fn segment_count(d: &[u8]) -> usize
    requires { length d.now ≡ draw_bytes }
    ensures { (result ≡ segment_count d.now) × (result < 256) }
{
    usize::from(d[SEGMENT_COUNT_AT])
}

pub fn scissor_count(d: &[u8]) -> usize
    requires { length d.now ≡ draw_bytes }
    ensures { (result ≡ scissor_count d.now) × (result < 256) }
{
    usize::from(d[SCISSOR_COUNT_AT])
}

pub fn stop_count(d: &[u8]) -> usize
    requires { length d.now ≡ draw_bytes }
    ensures { (result ≡ stop_count d.now) × (result < 256) }
{
    usize::from(d[STOP_COUNT_AT])
}

// The matrix before conversion.
pub fn matrix(d: &[u8]) -> Matrix
    requires { length d.now ≡ draw_bytes }
    ensures { result ≡ matrix_of d.now }
{
    Matrix {
        sx: float_at(d, MATRIX_AT),
        shy: float_at(d, MATRIX_AT + 4),
        shx: float_at(d, MATRIX_AT + 8),
        sy: float_at(d, MATRIX_AT + 12),
        tx: float_at(d, TRANSLATION_AT),
        ty: float_at(d, TRANSLATION_AT + 4),
    }
}

// The matrix in 1/65,536, where its entries are within their limits.
#[tactic(auto, unfolding(path::specs::Answers::converted))]
pub fn fixed_matrix(d: &[u8]) -> FixedMatrix
    requires { (length d.now ≡ draw_bytes) × (matrix_in_limits (matrix_of d.now) ≡ true) }
    ensures { result ≡ fixed_matrix (matrix_of d.now) }
{
    FixedMatrix::from_floats(matrix(d)).unwrap()
}

// What the draw paints with.
pub fn paint(d: &[u8]) -> Paint
    requires { (length d.now ≡ draw_bytes) × (is_paint (paint_type_of d.now) ≡ true) }
    ensures { (result ≡ paint_of d.now) × (paint_type result ≡ paint_type_of d.now) }
{
    let kind = paint_type(d);
    if kind == PAINT_RADIAL {
        Paint::Radial(radial_points(d))
    } else if kind == PAINT_LINEAR {
        Paint::Linear(linear_points(d))
    } else {
        Paint::Solid(color(d))
    }
}

fn color(d: &[u8]) -> Color
    requires { length d.now ≡ draw_bytes }
    ensures { result ≡ color_of d.now }
{
    Color {
        r: float_at(d, COLOR_AT),
        g: float_at(d, COLOR_AT + 4),
        b: float_at(d, COLOR_AT + 8),
        a: float_at(d, COLOR_AT + 12),
    }
}

fn linear_points(d: &[u8]) -> LinearPoints
    requires { length d.now ≡ draw_bytes }
    ensures { result ≡ linear_of d.now }
{
    LinearPoints {
        x0: float_at(d, LINEAR_POINTS_AT),
        y0: float_at(d, LINEAR_POINTS_AT + 4),
        x1: float_at(d, LINEAR_POINTS_AT + 8),
        y1: float_at(d, LINEAR_POINTS_AT + 12),
    }
}

// A radial draw's circle.
pub fn radial_points(d: &[u8]) -> RadialPoints
    requires { length d.now ≡ draw_bytes }
    ensures { result ≡ radial_of d.now }
{
    RadialPoints {
        cx: float_at(d, RADIAL_AT),
        cy: float_at(d, RADIAL_AT + 4),
        fx: float_at(d, RADIAL_AT + 8),
        fy: float_at(d, RADIAL_AT + 12),
        r: float_at(d, RADIAL_AT + 16),
    }
}

// Edition 1's colour transformation.
pub fn transform(d: &[u8]) -> ColorTransform
    requires { length d.now ≡ draw_bytes }
    ensures { result ≡ transform_of d.now }
{
    ColorTransform {
        sr: float_at(d, TRANSFORM_AT),
        sg: float_at(d, TRANSFORM_AT + 4),
        sb: float_at(d, TRANSFORM_AT + 8),
        sa: float_at(d, TRANSFORM_AT + 12),
        br: float_at(d, TRANSFORM_AT + 16),
        bg: float_at(d, TRANSFORM_AT + 20),
        bb: float_at(d, TRANSFORM_AT + 24),
        ba: float_at(d, TRANSFORM_AT + 28),
    }
}

// The float at a place, NaN for each of the patterns that are.
fn float_at(d: &[u8], at: usize) -> f32
    requires { at + 4 ≤ length d.now }
    ensures { result ≡ f32_at d.now at }
{
    f32_at(d, at).unwrap_or(f32::NAN)
}

// The bytes of the scissors.
pub fn scissors(d: &[u8]) -> &[u8]
    requires { length d.now ≡ draw_bytes }
    ensures { result.now ≡ scissors_of d.now }
{
    &d[SCISSORS_AT..STOPS_AT]
}

// Where the stops begin: a radial draw's at the second place.
pub fn first_stop(d: &[u8]) -> usize
    requires { length d.now ≡ draw_bytes }
    ensures { (result ≡ first_stop_at d.now) × (result ≤ 152) }
{
    if is_radial(d) {
        STOPS_AT + STOP_BYTES
    } else {
        STOPS_AT
    }
}

// The bytes of the stops.
pub fn stops(d: &[u8]) -> &[u8]
    requires { length d.now ≡ draw_bytes }
    ensures { result.now ≡ stops_of d.now }
{
    let first = first_stop(d);
    &d[first..SEGMENTS_AT]
}

// The segments, a byte each.
pub fn segments(d: &[u8]) -> &[u8]
    requires { length d.now ≡ draw_bytes }
    ensures { result.now ≡ segments_of d.now }
{
    &d[SEGMENTS_AT..SEGMENTS_END]
}

// Where the coordinates begin: in edition 1 behind the colour transformation.
pub fn coordinates_at(edition: u32) -> usize
    ensures { (result ≡ coordinates_at edition) × (result ≤ 932) }
{
    if edition == NEW_EDITION {
        NEW_COORDINATES_AT
    } else {
        OLD_COORDINATES_AT
    }
}

// The bytes of the coordinates.
pub fn coordinates(d: &[u8], edition: u32) -> &[u8]
    requires { length d.now ≡ draw_bytes }
    ensures { result.now ≡ coordinates_of edition d.now }
{
    let first = coordinates_at(edition);
    &d[first..DRAW_BYTES]
}
