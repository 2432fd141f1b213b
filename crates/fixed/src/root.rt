// The square root of a whole number below 2^60, rounded down, from a guess. The library's isqrt takes no guess, and always 32 turns: too slow
// for a pixel.
ghost use Rattle.std.specs.Prelude.{◌≡◌, ◌+◌, ◌*◌, ◌≤◌, ◌<◌};
ghost use Rattle.fixed.specs.Roots as Roots;

// 2^30: the root of every number below 2^60 is below it.
const ABOVE: u64 = 1073741824;

// The guess may be any number: the nearer it is, the fewer turns. One division.
pub fn isqrt_near(n: u64, guess: u64) -> u64
    requires { n < 1152921504606846976 }
    ensures { result ≡ Roots.isqrt n }
{
    descend(n, newton(n, guess))
}

// A step of Newton's, which never ends below the root.
fn newton(n: u64, guess: u64) -> u64
    requires { n < 1152921504606846976 }
    ensures { (Roots.isqrt n ≤ result) × (result ≤ 1073741824) }
{
    if guess == 0 || ABOVE <= guess {
        return ABOVE;
    }
    ((guess + n / guess) / 2).min(ABOVE)
}

// The root from a number that is not below it: down by 1, 3, 7, .. until the root is passed, then between the last two. A number that is
// the root, or the one after it, takes no turn.
fn descend(n: u64, from: u64) -> u64
    requires { (Roots.isqrt n ≤ from) × (from ≤ 1073741824) }
    ensures { result ≡ Roots.isqrt n }
{
    if from * from <= n {
        return from;
    }
    let mut high = from;
    let mut low = from - 1;
    while n < low * low {
        let step = 2 * (high - low);
        high = low;
        low = low.saturating_sub(step);
    }
    halve(n, low, high)
}

// The root, which lies from low to before high, by halving.
fn halve(n: u64, low: u64, high: u64) -> u64
    requires { (low * low ≤ n) × (n < high * high) × (low < high) × (high ≤ 1073741824) }
    ensures { result ≡ Roots.isqrt n }
{
    let mut below = low;
    let mut above = high;
    while below + 1 < above {
        let middle = (below + above) / 2;
        if middle * middle <= n {
            below = middle;
        } else {
            above = middle;
        }
    }
    below
}
