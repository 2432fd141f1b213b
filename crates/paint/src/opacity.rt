// Gradients that let nothing of what is under them through.
ghost use Rattle.std.specs.Prelude.{◌≡◌, true};
ghost use Rattle.paint.specs.Buffers.{HeldRamp};
ghost use Rattle.paint.specs.Circles.{HeldGradient};
ghost use Rattle.paint.specs.Opaque.{OpaqueStops, OpaqueGradient};

use crate::AnyGradient;
use crate::ramp::stop_color;

// Whether a gradient is opaque all over: the alphas of all its stops are 255.
pub fn is_opaque(g: AnyGradient, ramp: &[u32]) -> bool
    requires { HeldGradient g ramp.now }
    ensures { result ≡ true → OpaqueGradient g ramp.now }
{
    match g {
        AnyGradient::Linear(l) => has_opaque_stops(ramp, l.count),
        AnyGradient::Radial(r) => has_opaque_stops(ramp, r.count),
    }
}

fn has_opaque_stops(ramp: &[u32], count: usize) -> bool
    requires { HeldRamp ramp.now count }
    ensures { result ≡ true → OpaqueStops ramp.now count }
{
    for i in 0..count {
        if stop_color(ramp, i).a != 255 {
            return false;
        }
    }
    true
}
