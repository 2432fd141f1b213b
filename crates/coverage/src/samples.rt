// From what begins at each column to the samples that are inside.
ghost use Rattle.std.specs.Prelude.{◌≡◌, true, false, ℕ, ◌+◌, ◌*◌, ◌<◌, ◌≤◌, length};
ghost use Rattle.coverage.specs.Winding.{inside_by, one_if};
ghost use Rattle.coverage.specs.Scanline.{at, laid, zeros, Low, LowFour, Sized, last_of, column_from, inside_of};
ghost use Rattle.coverage.specs.Scanline.{cell_in, cell_from, Bounded};

use crate::zero::zero_numbers;
use crate::{Cell, Windings};

// 1 where the winding number is not zero.
fn not_zero(w: i32) -> u32
    ensures { (result ≡ one_if (inside_by true w)) × (result ≤ 1) }
{
    if w != 0 { 1 } else { 0 }
}

// 1 where it is odd.
fn is_odd(w: i32) -> u32
    ensures { (result ≡ one_if (inside_by false w)) × (result ≤ 1) }
{
    if w % 2 != 0 { 1 } else { 0 }
}

// How many of four are not zero.
#[tactic(auto, unfolding(crate::specs::Scanline::inside_of))]
fn not_zeros(w: Windings) -> u32
    ensures { (result ≡ inside_of true w) × (result ≤ 4) }
{
    not_zero(w.a) + not_zero(w.b) + not_zero(w.c) + not_zero(w.d)
}

// How many of four are odd.
#[tactic(auto, unfolding(crate::specs::Scanline::inside_of))]
fn odds(w: Windings) -> u32
    ensures { (result ≡ inside_of false w) × (result ≤ 4) }
{
    is_odd(w.a) + is_odd(w.b) + is_odd(w.c) + is_odd(w.d)
}

// The winding numbers at the next column, whose four numbers stand from i on, after z.
fn take_column(sums: &[i32], i: usize, z: Windings) -> Windings
    requires { (i + 3 < length sums.now) × LowFour sums.now i × Sized 4000000 z }
    ensures { result ≡ column_from z sums.now i }
{
    let za = z.a;
    let zb = z.b;
    let zc = z.c;
    let zd = z.d;
    Windings {
        a: za + sums[i],
        b: zb + sums[i + 1],
        c: zc + sums[i + 2],
        d: zd + sums[i + 3],
    }
}

// How many samples of four columns are inside. The fill rule is asked for once, so that all are counted side by side.
fn count_samples(nonzero: bool, t: Windings, u: Windings, v: Windings, w: Windings) -> u32
    ensures { (result ≡ inside_of nonzero t + inside_of nonzero u + inside_of nonzero v + inside_of nonzero w) × (result ≤ 16) }
{
    if nonzero {
        return not_zeros(t) + not_zeros(u) + not_zeros(v) + not_zeros(w);
    }
    odds(t) + odds(u) + odds(v) + odds(w)
}

// k of a pixel whose four sample rows have these winding numbers all along.
fn full_of(nonzero: bool, w: Windings) -> u32
    ensures { (result ≡ inside_of nonzero w * 4) × (result ≤ 16) }
{
    if nonzero {
        return not_zeros(w) * 4;
    }
    odds(w) * 4
}

// The pixel of four columns.
fn cell_of(nonzero: bool, t: Windings, u: Windings, v: Windings, w: Windings) -> Cell
    ensures { result ≡ cell_in nonzero t u v w }
{
    Cell {
        a: w.a,
        b: w.b,
        c: w.c,
        d: w.d,
        full: full_of(nonzero, w) as u8,
        count: count_samples(nonzero, t, u, v, w) as u8,
    }
}

// Pixel p, after z, with its 16 numbers, which are set to 0. Four sample rows go side by side from column to column.
pub fn take_cell(sums: &mut [i32], p: usize, z: Cell, nonzero: bool) -> Cell
    requires p_in_bounds { (p * 16 + 16 ≤ length sums.old) × Bounded z }
    requires by_index { (j : ℕ) → Low (at sums.old (p * 16 + j)) }
    ensures value { result ≡ cell_from nonzero z (λ j. at sums.old (p * 16 + j)) }
    ensures sums_after { sums.new ≡ laid (p * 16) 16 sums.old (zeros 16) }
{
    let i = p * 16;
    let a = take_column(sums, i, last_column(z));
    let b = take_column(sums, i + 4, a);
    let c = take_column(sums, i + 8, b);
    let d = take_column(sums, i + 12, c);
    let e = i + 16;
    zero_numbers(&mut sums[i..e]);
    cell_of(nonzero, a, b, c, d)
}

// The winding numbers at the last column of a pixel.
fn last_column(z: Cell) -> Windings
    ensures { result ≡ last_of z }
{
    Windings {
        a: z.a,
        b: z.b,
        c: z.c,
        d: z.d,
    }
}
