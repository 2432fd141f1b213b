// Scissors: k becomes 0 outside every rectangle.
ghost use Rattle.std.specs.Prelude.{◌≡◌, true, cond, ◌||◌, ℕ, ◌+◌, ◌*◌, ◌^◌, ◌<◌, ◌≤◌, length, get_or, pos};
ghost use Rattle.std.specs.Int.Signed.{le_z, lt_z};
ghost use Rattle.lists.specs.Lists.{tab};
ghost use Rattle.coverage.specs.Scissors.{scissored};
ghost use Rattle.coverage.specs.Scanline.{span_of, run_of, in_span};

use crate::Span;

// k of each pixel from (x, y) on, in one row, with scissoring on.
pub fn scissor_row(scissors: &[u8], n: usize, x: usize, y: usize, cover: &mut [u8])
    requires n_bound { (n ≤ 4) × (16 * n ≤ length scissors.now) }
    requires y_bound { (y < 1024) × (x + length cover.old ≤ 1024) }
    ensures { cover.new
        ≡ tab (length cover.old) (λ i. scissored true scissors.now n (x + i) y (get_or cover.old i 0)) }
{
    let a = span(scissors, n, 0, y);
    let b = span(scissors, n, 1, y);
    let c = span(scissors, n, 2, y);
    let d = span(scissors, n, 3, y);
    let mut i = 0;
    while i < cover.len() {
        let e = nearest_border(a, b, c, d, x + i, x + cover.len()) - x;
        let keep = kept(a, b, c, d, x + i);
        cut(&mut cover[i..e], keep);
        i = e;
    }
}

// The columns that rectangle r of the n has in the row y.
fn span(scissors: &[u8], n: usize, r: usize, y: usize) -> Span
    requires { (r < 4) × (16 * n ≤ length scissors.now) × (y < 1024) }
    ensures { result ≡ span_of scissors.now n r y }
{
    if n <= r {
        return Span { start: 0, end: 0 };
    }
    let at = 16 * r;
    let rows = run(
        fixed::i32_at(scissors, at + 4),
        fixed::i32_at(scissors, at + 12),
    );
    if in_span(rows, y) {
        run(fixed::i32_at(scissors, at), fixed::i32_at(scissors, at + 8))
    } else {
        Span { start: 0, end: 0 }
    }
}

// From start to start + size - 1, as whole numbers.
pub fn run(start: i32, size: i32) -> Span
    ensures { result ≡ run_of start size }
{
    Span {
        start: start as i64,
        end: start as i64 + size as i64,
    }
}

fn in_span(s: Span, x: usize) -> bool
    requires { x < 2 ^ 31 }
    ensures { result ≡ in_span s x }
{
    s.start <= x as i64 && (x as i64) < s.end
}

// Whether the column x is in one of the spans.
fn kept(a: Span, b: Span, c: Span, d: Span, x: usize) -> bool
    requires { x < 2 ^ 31 }
    ensures { result ≡ (in_span a x || in_span b x || in_span c x || in_span d x) }
{
    in_span(a, x) || in_span(b, x) || in_span(c, x) || in_span(d, x)
}

// A column right of x, at most end, before which all columns from x on are kept or none is.
fn nearest_border(a: Span, b: Span, c: Span, d: Span, x: usize, end: usize) -> usize
    requires { (x < end) × (end < 2 ^ 31) }
    ensures lower_bound { (x < result) × (result ≤ end) }
    ensures by_index { (j : ℕ) → x ≤ j → j < result
        → (in_span a j || in_span b j || in_span c j || in_span d j) ≡ (in_span a x || in_span b x || in_span c x || in_span d x) }
{
    border(a, x, border(b, x, border(c, x, border(d, x, end))))
}

// A column right of x, at most end, before which all columns from x on are in the span or none is.
fn border(s: Span, x: usize, end: usize) -> usize
    requires { (x < end) × (end < 2 ^ 31) }
    ensures lower_bound { (x < result) × (result ≤ end) }
    ensures by_index { (j : ℕ) → x ≤ j → j < result → in_span s j ≡ in_span s x }
{
    let start = s.start;
    let stop = s.end;
    if (x as i64) < start {
        return nearer(start, x, end);
    }
    if (x as i64) < stop {
        return nearer(stop, x, end);
    }
    end
}

// The nearer of two columns right of x.
fn nearer(column: i64, x: usize, end: usize) -> usize
    requires { (lt_z (pos x) column ≡ true) × (x < end) × (end < 2 ^ 31) }
    ensures { (x < result) × (result ≤ end) × (le_z (pos result) column ≡ true) }
{
    column.min(end as i64) as usize
}

// A part of a row, kept as it is or made 0.
fn cut(part: &mut [u8], keep: bool)
    ensures { part.new ≡ tab (length part.old) (λ i. cond keep (get_or part.old i 0) 0) }
{
    if !keep {
        part.fill(0);
    }
}
