// The rules of a draw, judged by its own bytes and the scene's edition: fields in layout order, then the path, then what is left unused.
ghost use Rattle.std.specs.Prelude.{◌≡◌, true, ◌≤◌, ◌<◌, get_or, length, leb, Ok};
ghost use Rattle.blend.specs.PorterDuff.{is_mode};
ghost use Rattle.path.specs.Matrices.{matrix_in_limits};
ghost use Rattle.scene.specs.Layout.{draw_bytes, segment_limit, radial_at, radial_floats, flags_limit, flags_at, blend_at, paint_type_at, spread_at};
ghost use Rattle.scene.specs.Fields.{blend_of, paint_type_of, spread_of, segment_count, stop_count, matrix_of};
ghost use Rattle.scene.specs.Faults as Faults;
ghost use Rattle.codes.specs.First.{first_of};
ghost use Rattle.scene.specs.Rules.{is_gradient, is_paint, is_spread, flags_allowed, head_rules, stop_limit_of, count_rules, float_rules};
ghost use Rattle.scene.specs.Rules.{radial_limit, focal_rule, circle_rules, stop_rules, list_rules, transform_rules, flat_rule};
ghost use Rattle.scene.specs.Rules.{in_path, path_rules, rest_rules, draw_rules};

use crate::FieldFault;
use crate::faults::{limited, must, numbers, unused};
use crate::fields::{
    blend_mode, coordinates, coordinates_at, first_stop, fixed_matrix, is_radial, paint_type,
    radial_points, scissor_count, segment_count, segments, spread, stop_count, uses_mask,
};
use crate::layout::{
    BLEND_AT, COLOR_AT, DRAW_BYTES, FLAGS_AT, LINEAR_POINTS_AT, MATRIX_AT, NEW_EDITION,
    NEW_FLAGS_LIMIT, OLD_FLAGS_LIMIT, PADDING_AT, PAINT_COLOR, PAINT_LINEAR, PAINT_RADIAL,
    PAINT_TYPE_AT, POINT_LIMIT_LOG, RADIAL_AT, RADIAL_FLOATS, RADIAL_LIMIT_LOG, RADIAL_STOP_LIMIT,
    SCISSOR_BYTES, SCISSOR_COUNT_AT, SCISSOR_LIMIT, SCISSORS_AT, SEGMENT_COUNT_AT, SEGMENT_LIMIT,
    SEGMENTS_AT, SEGMENTS_END, SPREAD_AT, SPREAD_PAD, SPREAD_REFLECT, STOP_BYTES, STOP_COUNT_AT,
    STOP_FLOATS, STOP_LIMIT, STOPS_AT, TRANSFORM_AT, TRANSFORM_FLOATS, TRANSLATION_AT,
};
use blend::factor::is_mode;
use fixed::u16_at;
use paint::radial::{fixed_circle, focal_allowed};
use path::rules::check;
use path::{FixedMatrix, PathFault};

// A draw of a scene of that edition, judged by itself, where a mask is lent or is not.
#[tactic(auto, using(crate::proofs::First::in_order), unfolding(crate::specs::Rules::draw_rules))]
pub fn draw_rules(d: &[u8], lent: bool, edition: u32) -> Result<(), FieldFault>
    requires { length d.now ≡ draw_bytes }
    ensures { result ≡ draw_rules lent edition d.now }
{
    head_rules(d, lent, edition)?;
    float_rules(d)?;
    list_rules(d)?;
    transform_rules(d, edition)?;
    flat_rule(d)?;
    path_rules(d, edition)
}

// Flags, blend mode, paint type, spread, then the counts.
#[tactic(auto, using(crate::proofs::First::in_order), unfolding(crate::specs::Rules::head_rules))]
fn head_rules(d: &[u8], lent: bool, edition: u32) -> Result<(), FieldFault>
    requires { length d.now ≡ draw_bytes }
    ensures { result ≡ head_rules lent edition d.now }
{
    must(flags_allowed(d, lent, edition), FLAGS_AT)?;
    must(is_mode(blend_mode(d)), BLEND_AT)?;
    must(is_paint(paint_type(d)), PAINT_TYPE_AT)?;
    must(is_spread(spread(d)), SPREAD_AT)?;
    count_rules(d)
}

// No bit without a meaning is set, and the mask's only where one is lent.
#[tactic(auto, unfolding(crate::specs::Rules::flags_allowed))]
fn flags_allowed(d: &[u8], lent: bool, edition: u32) -> bool
    requires { length d.now ≡ draw_bytes }
    ensures { result ≡ flags_allowed lent edition d.now }
{
    if u16_at(d, FLAGS_AT) >= flags_limit(edition) {
        return false;
    }
    lent || !uses_mask(d)
}

// What the flags stay below.
#[tactic(auto, unfolding(crate::specs::Layout::flags_limit))]
fn flags_limit(edition: u32) -> u32
    ensures { result ≡ flags_limit edition }
{
    if edition == NEW_EDITION {
        NEW_FLAGS_LIMIT
    } else {
        OLD_FLAGS_LIMIT
    }
}

// The counts, and the zero after them.
#[tactic(auto, using(crate::proofs::First::in_order), unfolding(crate::specs::Rules::count_rules))]
fn count_rules(d: &[u8]) -> Result<(), FieldFault>
    requires { length d.now ≡ draw_bytes }
    ensures { result ≡ count_rules d.now }
{
    count_rule(d, SEGMENT_COUNT_AT, SEGMENT_LIMIT)?;
    count_rule(d, SCISSOR_COUNT_AT, SCISSOR_LIMIT)?;
    count_rule(d, STOP_COUNT_AT, stop_limit(d))?;
    must(d[PADDING_AT] == 0, PADDING_AT)
}

// How many stops the draw may have.
#[tactic(auto, unfolding(crate::specs::Rules::stop_limit_of))]
fn stop_limit(d: &[u8]) -> u8
    requires { length d.now ≡ draw_bytes }
    ensures { result ≡ stop_limit_of d.now }
{
    if is_radial(d) {
        RADIAL_STOP_LIMIT
    } else {
        STOP_LIMIT
    }
}

// A byte that counts at most so many.
fn count_rule(d: &[u8], at: usize, limit: u8) -> Result<(), FieldFault>
    requires { (length d.now ≡ draw_bytes) × (at < draw_bytes) }
    ensures { result ≡ Faults.must (leb (get_or d.now at 0) limit) at }
{
    must(d[at] <= limit, at)
}

fn is_paint(n: u32) -> bool
    ensures { result ≡ is_paint n }
{
    n == PAINT_COLOR || is_gradient(n)
}

fn is_gradient(n: u32) -> bool
    ensures { result ≡ is_gradient n }
{
    n == PAINT_LINEAR || n == PAINT_RADIAL
}

fn is_spread(n: u32) -> bool
    ensures { result ≡ is_spread n }
{
    SPREAD_PAD <= n && n <= SPREAD_REFLECT
}

// Matrix, colour and linear points, whatever the paint type.
#[tactic(auto, using(crate::proofs::First::in_order), unfolding(crate::specs::Rules::float_rules))]
fn float_rules(d: &[u8]) -> Result<(), FieldFault>
    requires { length d.now ≡ draw_bytes }
    ensures { result ≡ float_rules d.now }
{
    limited(d, FixedMatrix::LINEAR_LIMIT_LOG, MATRIX_AT, 4)?;
    limited(d, FixedMatrix::TRANSLATION_LIMIT_LOG, TRANSLATION_AT, 2)?;
    numbers(d, COLOR_AT, 4)?;
    limited(d, POINT_LIMIT_LOG, LINEAR_POINTS_AT, 4)
}

// Unused scissors, the circle, the stops.
#[tactic(auto, using(crate::proofs::First::in_order), unfolding(crate::specs::Rules::list_rules))]
fn list_rules(d: &[u8]) -> Result<(), FieldFault>
    requires { (length d.now ≡ draw_bytes) × (stop_count d.now ≤ stop_limit_of d.now) }
    ensures { result ≡ list_rules d.now }
{
    unused(d, SCISSORS_AT + SCISSOR_BYTES * scissor_count(d), STOPS_AT)?;
    circle_rules(d)?;
    stop_rules(d)
}

// A radial draw's circle: each of its values, then the focal point.
#[tactic(auto, using(crate::proofs::First::in_order), unfolding(crate::specs::Rules::circle_rules))]
fn circle_rules(d: &[u8]) -> Result<(), FieldFault>
    requires { length d.now ≡ draw_bytes }
    ensures { result ≡ circle_rules d.now }
{
    if !is_radial(d) {
        return Ok(());
    }
    limited(d, RADIAL_LIMIT_LOG, RADIAL_AT, RADIAL_FLOATS)?;
    focal_rule(d)
}

// The focal point, of values within their limits.
#[tactic(auto, using(crate::proofs::First::in_order), unfolding(crate::specs::Rules::focal_rule))]
fn focal_rule(d: &[u8]) -> Result<(), FieldFault>
    requires { (length d.now ≡ draw_bytes) × (Faults.limited d.now radial_limit radial_at radial_floats ≡ Ok tt) }
    ensures { result ≡ focal_rule d.now }
{
    must(focal_allowed(fixed_circle(radial_points(d))), RADIAL_AT)
}

// Used stops, unused stops.
#[tactic(auto, using(crate::proofs::First::in_order), unfolding(crate::specs::Rules::stop_rules))]
fn stop_rules(d: &[u8]) -> Result<(), FieldFault>
    requires { (length d.now ≡ draw_bytes) × (stop_count d.now ≤ stop_limit_of d.now) }
    ensures { result ≡ stop_rules d.now }
{
    let first = first_stop(d);
    let stops = stop_count(d);
    numbers(d, first, STOP_FLOATS * stops)?;
    unused(d, first + STOP_BYTES * stops, SEGMENTS_AT)
}

// Edition 1's colour transformation, on or off.
#[tactic(auto, using(crate::proofs::First::in_order), unfolding(crate::specs::Rules::transform_rules))]
fn transform_rules(d: &[u8], edition: u32) -> Result<(), FieldFault>
    requires { length d.now ≡ draw_bytes }
    ensures { result ≡ transform_rules edition d.now }
{
    if edition != NEW_EDITION {
        return Ok(());
    }
    numbers(d, TRANSFORM_AT, TRANSFORM_FLOATS)
}

// A matrix that is not flat, where there are segments.
#[tactic(auto, using(crate::proofs::First::in_order), unfolding(crate::specs::Rules::flat_rule))]
fn flat_rule(d: &[u8]) -> Result<(), FieldFault>
    requires { (length d.now ≡ draw_bytes) × (matrix_in_limits (matrix_of d.now) ≡ true) }
    ensures { result ≡ flat_rule d.now }
{
    if segment_count(d) == 0 {
        return Ok(());
    }
    must(!fixed_matrix(d).is_flat(), MATRIX_AT)
}

// The path, segment by segment, then unused segments and coordinates.
fn path_rules(d: &[u8], edition: u32) -> Result<(), FieldFault>
    requires d_len { (length d.now ≡ draw_bytes) × (segment_count d.now ≤ segment_limit) }
    requires d_value { matrix_in_limits (matrix_of d.now) ≡ true }
    ensures { result ≡ first_of (path_rules edition d.now) (rest_rules edition d.now) }
{
    let n = segment_count(d);
    let used = check(fixed_matrix(d), segments(d), coordinates(d, edition), n).map_err(in_path)?;
    unused(d, SEGMENTS_AT + n, SEGMENTS_END)?;
    unused(d, coordinates_at(edition) + 2 * used, DRAW_BYTES)
}

// A path's fault as one among fields: a segment is a byte.
fn in_path(f: PathFault) -> FieldFault
    requires { f.segment ≤ segment_limit }
    ensures { result ≡ in_path f }
{
    FieldFault {
        code: f.code,
        place: (SEGMENTS_AT + f.segment) as u16,
    }
}
