// The eight floats as whole numbers: cut to their limits, then floor(256v + 1/2), exactly.
ghost use Rattle.std.specs.Prelude.{◌≡◌, true};
ghost use Rattle.fixed.specs.Floats.{scaled, at_most};
ghost use Rattle.transform.specs.Transforms.{cut, fixed_scale, fixed_bias, fixed_transform};

use crate::{ColorTransform, FixedTransform};
use fixed::to_whole;

// The largest size of a scale and of a bias.
const SCALE_LIMIT: f32 = 127.0;

const BIAS_LIMIT: f32 = 1.0;

pub fn fixed_transform(t: ColorTransform) -> FixedTransform
    ensures { result ≡ fixed_transform t }
{
    FixedTransform {
        sr: fixed_scale(t.sr),
        sg: fixed_scale(t.sg),
        sb: fixed_scale(t.sb),
        sa: fixed_scale(t.sa),
        br: fixed_bias(t.br),
        bg: fixed_bias(t.bg),
        bb: fixed_bias(t.bb),
        ba: fixed_bias(t.ba),
    }
}

fn fixed_scale(v: f32) -> i32
    ensures { result ≡ fixed_scale v }
{
    in_256ths(cut(v, SCALE_LIMIT))
}

fn fixed_bias(v: f32) -> i32
    ensures { result ≡ fixed_bias v }
{
    in_256ths(cut(v, BIAS_LIMIT))
}

fn in_256ths(v: f32) -> i32
    requires { at_most 127 v ≡ true }
    ensures { result ≡ scaled 256 v }
{
    to_whole(v, 256) as i32
}

// v cut to −limit..limit; no call of clamp, which keeps a NaN, where the definition `cut` gives −limit.
fn cut(v: f32, limit: f32) -> f32
    ensures { result ≡ cut limit v }
{
    if -limit < v {
        if v < limit { v } else { limit }
    } else {
        -limit
    }
}
