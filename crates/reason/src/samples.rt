// The scissors and k of a draw at one pixel.
ghost use Rattle.std.specs.Prelude.{◌≡◌, ◌≤◌, ◌<◌, length, get_or, pos, not};
ghost use Rattle.lists.specs.Lists.{total};
ghost use Rattle.coverage.specs.Winding.{inside_by, one_if, coverage};
ghost use Rattle.scene.specs.Layout.{draw_bytes};
ghost use Rattle.scene.specs.Fields.{non_zero_rule, scissor_count};
ghost use Rattle.scene.specs.Fields as Fields;
ghost use Rattle.scene.specs.Accepted.{AcceptedDraw};
ghost use Rattle.coverage.specs.Scissors.{in_scissors};
ghost use Rattle.engine.specs.Picture.{draw_edges};
ghost use Rattle.reason.specs.Explanations.{outside_scissors};
ghost use Rattle.reason.specs.Summed.{Sums};

use crate::windings::add_path;
use plain::samples::one_if_inside;

// The samples of a pixel.
const SAMPLES: usize = 16;

// Whether scissoring is on and the pixel in no scissor.
#[tactic(auto, unfolding(crate::specs::Explanations::outside_scissors))]
pub fn outside_scissors(d: &[u8], x: usize, y: usize) -> bool
    requires d_len { (length d.now ≡ draw_bytes) × (scissor_count d.now ≤ 4) }
    requires x_bound { (x < 1024) × (y < 1024) }
    ensures { result ≡ outside_scissors d.now x y }
{
    scene::fields::scissoring(d) && scissors_miss(d, x, y)
}

// Whether the pixel is in no scissor: the one sample of a row of one pixel is not kept.
fn scissors_miss(d: &[u8], x: usize, y: usize) -> bool
    requires d_len { (length d.now ≡ draw_bytes) × (scissor_count d.now ≤ 4) }
    requires x_bound { (x < 1024) × (y < 1024) }
    ensures { result ≡ not (in_scissors (Fields.scissors_of d.now) (scissor_count d.now) x y) }
{
    let mut sample = [1u8; 1];
    coverage::scissor_row(
        scene::fields::scissors(d),
        scene::fields::scissor_count(d),
        x,
        y,
        &mut sample,
    );
    sample[0] == 0
}

// k of the draw's path, whatever its scissors.
pub fn covered_samples(d: &[u8], edition: u32, x: usize, y: usize) -> u8
    requires d_len { (length d.now ≡ draw_bytes) × AcceptedDraw edition d.now }
    requires x_bound { (x < 1024) × (y < 1024) }
    ensures { result ≡ coverage (draw_edges edition d.now) (non_zero_rule d.now) x y }
{
    let mut sums = [0i32; SAMPLES];
    add_path(
        scene::fields::fixed_matrix(d),
        scene::fields::segments(d),
        scene::fields::segment_count(d),
        scene::fields::coordinates(d, edition),
        x,
        y,
        &mut sums,
    );
    count_inside(&sums, scene::fields::non_zero_rule(d))
}

// How many of 16 winding numbers are inside.
fn count_inside(sums: &[i32], nonzero: bool) -> u8
    requires { Sums sums.now 4096 }
    ensures { result ≡ total 16 (λ j. one_if (inside_by nonzero (get_or sums.now j (pos 0)))) }
{
    let mut k = 0;
    for j in 0..SAMPLES {
        k += one_if_inside(nonzero, sums[j]);
    }
    k as u8
}
