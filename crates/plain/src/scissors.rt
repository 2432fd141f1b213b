// Scissors: k of a pixel outside every rectangle is 0.
ghost use Rattle.std.specs.Prelude.{◌≡◌, ◌+◌, ◌*◌, ◌<◌, ◌≤◌, ◌^◌, length};
ghost use Rattle.coverage.specs.Scissors.{spans_pixel, in_scissor, in_scissors};
ghost use Rattle.engine.specs.Rows.{Few, scissored_by};

// Whether pixel x is one of start to start + size - 1, as whole numbers.
fn is_within(start: i32, size: i32, x: usize) -> bool
    requires { x < 2 ^ 31 }
    ensures { result ≡ spans_pixel start size x }
{
    let end = start as i64 + size as i64;
    if start as i64 <= x as i64 {
        (x as i64) < end
    } else {
        false
    }
}

// Whether the pixel (x, y) lies in rectangle i.
fn is_in_scissor(scissors: &[u8], i: usize, x: usize, y: usize) -> bool
    requires { (i < 4) × (16 * i + 16 ≤ length scissors.now) × (x < 1024) × (y < 1024) }
    ensures { result ≡ in_scissor scissors.now i x y }
{
    let at = 16 * i;
    if !is_within(
        fixed::i32_at(scissors, at),
        fixed::i32_at(scissors, at + 8),
        x,
    ) {
        return false;
    }
    is_within(
        fixed::i32_at(scissors, at + 4),
        fixed::i32_at(scissors, at + 12),
        y,
    )
}

// Whether the pixel (x, y) lies in any of the n rectangles.
fn is_in_scissors(scissors: &[u8], n: usize, x: usize, y: usize) -> bool
    requires { (n ≤ 4) × (64 ≤ length scissors.now) × (x < 1024) × (y < 1024) }
    ensures { result ≡ in_scissors scissors.now n x y }
{
    for i in 0..n {
        if is_in_scissor(scissors, i, x, y) {
            return true;
        }
    }
    false
}

// k of the pixel (x, y), where its path covers k of its samples: cut by so many rectangles where scissoring is on.
pub fn scissor_pixel(scissors: &[u8], count: Option<usize>, x: usize, y: usize, k: usize) -> usize
    requires { Few count × (64 ≤ length scissors.now) × (x < 1024) × (y < 1024) }
    ensures { result ≡ scissored_by count scissors.now x y k }
{
    match count {
        None => k,
        Some(n) => {
            if is_in_scissors(scissors, n, x, y) {
                k
            } else {
                0
            }
        }
    }
}
