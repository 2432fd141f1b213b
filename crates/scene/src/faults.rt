// Faults, and the rules that go over many places: a judgement is `Ok`, or the first fault.
// Floats are judged by their bit patterns, which without their signs are in the order of the sizes.
ghost use Rattle.std.specs.Prelude.{◌≡◌, ◌+◌, ◌*◌, ◌%◌, ◌^◌, ◌≤◌, length, leb, is_ok};
ghost use Rattle.fixed.specs.Little.{u32_at};
ghost use Rattle.fixed.specs.Patterns.{size_bits};
ghost use Rattle.codes.specs.First.{first_among};
ghost use Rattle.scene.specs.Layout.{draw_bytes};
ghost use Rattle.scene.specs.Faults as Faults;

use crate::FieldFault;
use crate::blocks::still_same;
use codes::Code;
use fixed::floats::{INFINITY, SIGN, power_pattern};
use fixed::u32_at;

// A rule of fields, and the place that must keep it.
pub fn must(ok: bool, place: usize) -> Result<(), FieldFault>
    requires { place ≤ draw_bytes }
    ensures { result ≡ Faults.must ok place }
{
    if ok {
        Ok(())
    } else {
        Err(FieldFault {
            code: Code::IllegalArgument,
            place: place as u16,
        })
    }
}

// Every byte from a place up to another is zero.
pub fn unused(d: &[u8], from: usize, to: usize) -> Result<(), FieldFault>
    requires { (to ≤ length d.now) × (to ≤ draw_bytes) }
    ensures { result ≡ Faults.unused d.now from to }
{
    if is_zero(d, from, to) {
        return Ok(());
    }
    first_used(d, from, to)
}

// Whether there is nothing but zeros, by a loop that looks at every byte, and so at many at a time.
fn is_zero(d: &[u8], from: usize, to: usize) -> bool
    requires { to ≤ length d.now }
    ensures { result ≡ is_ok (Faults.unused d.now from to) }
{
    let mut zero = true;
    for at in from..to {
        zero = still_same(zero, d[at], 0);
    }
    zero
}

// The first byte that is not zero, by a loop that ends there.
fn first_used(d: &[u8], from: usize, to: usize) -> Result<(), FieldFault>
    requires { (to ≤ length d.now) × (to ≤ draw_bytes) }
    ensures { result ≡ Faults.unused d.now from to }
{
    for at in from..to {
        must(d[at] == 0, at)?;
    }
    Ok(())
}

// n floats from a place on are at most 2^log in size.
pub fn limited(d: &[u8], log: u32, at: usize, n: usize) -> Result<(), FieldFault>
    requires { (log ≤ 15) × (at + 4 * n ≤ length d.now) × (at + 4 * n ≤ draw_bytes) }
    ensures { result ≡ Faults.limited d.now (2 ^ log) at n }
{
    patterns(d, power_pattern(log), at, n)
}

// n floats from a place on are no NaNs.
pub fn numbers(d: &[u8], at: usize, n: usize) -> Result<(), FieldFault>
    requires { (at + 4 * n ≤ length d.now) × (at + 4 * n ≤ draw_bytes) }
    ensures { result ≡ Faults.numbers d.now at n }
{
    patterns(d, INFINITY, at, n)
}

// The bit patterns of n floats from a place on are at most a limit, without their signs.
fn patterns(d: &[u8], limit: u32, at: usize, n: usize) -> Result<(), FieldFault>
    requires { (at + 4 * n ≤ length d.now) × (at + 4 * n ≤ draw_bytes) }
    ensures { result ≡ first_among n (λ i. Faults.must (leb (size_bits (u32_at d.now (at + 4 * i))) limit) (at + 4 * i)) }
{
    for i in 0..n {
        let place = at + 4 * i;
        must(u32_at(d, place) % SIGN <= limit, place)?;
    }
    Ok(())
}
