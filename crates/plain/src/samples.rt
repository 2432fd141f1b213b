// k of a pixel: at each of its 16 samples what all edges count is added up, and the samples inside are counted.
ghost use Rattle.std.specs.Prelude.{◌≡◌, ◌+◌, ◌*◌, ◌<◌, ◌≤◌, nat_abs};
ghost use Rattle.path.specs.Stored.{edges_of};
ghost use Rattle.coverage.specs.Winding.{winding, inside_by, one_if, sample, tally, coverage};
ghost use Rattle.coverage.specs.Scanline.{Outlined};

use crate::crossing::count;
use path::edges::load;

// A path by its edges in the scratch, so many, and its fill rule.
#[derive(Clone, Copy)]
pub struct Outline<'a> {
    pub scratch: &'a [i32],
    pub edges: usize,
    pub nonzero: bool,
    ghost outlined: { Outlined scratch.now edges },
}

impl Outline<'_> {
    // k of the pixel (x, y): how many of its 16 samples are inside.
    pub fn count_pixel(&self, x: usize, y: usize) -> usize
        requires { (x < 1024) × (y < 1024) }
        ensures { (result ≡ coverage (edges_of self.now.scratch.now self.now.edges) self.now.nonzero x y) × (result ≤ 16) }
    {
        let mut k = 0;
        for m in 0..4 {
            k += self.count_row(x, 4 * y + m);
        }
        k
    }

    // How many of the four samples of pixel column x are inside, in sample row j.
    fn count_row(&self, x: usize, j: usize) -> usize
        requires { (x < 1024) × (j < 4096) }
        ensures { (result
            ≡ tally self.now.nonzero (λ i. winding (edges_of self.now.scratch.now self.now.edges) (sample i) (sample j)) x) × (result ≤ 4) }
    {
        let mut k = 0;
        for m in 0..4 {
            k += self.take_sample(4 * x + m, j);
        }
        k
    }

    // 1 where sample column i of sample row j is inside.
    fn take_sample(&self, i: usize, j: usize) -> usize
        requires { (i < 4096) × (j < 4096) }
        ensures { (result
            ≡ one_if (inside_by self.now.nonzero (winding (edges_of self.now.scratch.now self.now.edges) (sample i) (sample j))))
            × (result ≤ 1) }
    {
        one_if_inside(
            self.nonzero,
            self.wind((64 * i + 32) as i32, (64 * j + 32) as i32),
        )
    }

    // The winding number of the edges at the sample (x, y): what each counts there, added up.
    fn wind(&self, x: i32, y: i32) -> i32
        requires { (nat_abs x ≤ 8388608) × (nat_abs y ≤ 8388608) }
        ensures { result ≡ winding (edges_of self.now.scratch.now self.now.edges) x y }
    {
        let mut sum: i32 = 0;
        for i in 0..self.edges {
            let e = load(self.scratch, i);
            sum += count(e, x, y);
        }
        sum
    }
}

// 1 where the winding number is inside: odd, or, by the non-zero rule, not zero.
pub fn one_if_inside(nonzero: bool, w: i32) -> usize
    ensures { (result ≡ one_if (inside_by nonzero w)) × (result ≤ 1) }
{
    if nonzero {
        if w != 0 { 1 } else { 0 }
    } else {
        if w % 2 != 0 { 1 } else { 0 }
    }
}
