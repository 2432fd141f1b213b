// Patterns in buffers, and what buffers hold.
ghost use Rattle.std.specs.Prelude.{◌≡◌, ◌<◌, ℕ, ℤ, length, pos};
ghost use Rattle.lists.specs.Lists.{tab};
ghost use Rattle.limits.specs.Patterns.{pattern_byte, pattern_number, Rule, Tells};

// A pattern of bytes, another one for each phase.
pub fn fill_bytes(s: &mut [u8], phase: u8)
    ensures { s.new ≡ tab (length s.old) (pattern_byte phase) }
{
    fill(s, |i| ((i % 251 + phase as usize) % 256) as u8);
}

// A pattern of numbers, none of them 0.
pub fn fill_numbers(s: &mut [i32])
    ensures { s.new ≡ tab (length s.old) pattern_number }
{
    fill(s, |i| number_at(i));
}

pub fn is_pattern(s: &[i32]) -> bool
    ensures { Tells result (s.now ≡ tab (length s.now) pattern_number) }
{
    follows(s, |i| number_at(i))
}

pub fn is_zero(s: &[i32]) -> bool
    ensures { Tells result (s.now ≡ tab (length s.now) (λ k. pos 0)) }
{
    follows(s, |_| 0)
}

fn number_at(i: usize) -> i32
    ensures { result ≡ pattern_number i }
{
    (i % 1000 + 1) as i32
}

// Puts what the rule gives to each place.
fn fill<T: Copy, F: Fn(usize) -> T>(s: &mut [T], at: F)
    requires { F.IsAlwaysCallable at }
    ensures { (g : ℕ → T) → Rule (F.post at) g → s.new ≡ tab (length s.old) g }
{
    for i in 0..s.len() {
        s[i] = at(i);
    }
}

// Whether each place holds what the rule gives.
fn follows<F: Fn(usize) -> i32>(s: &[i32], at: F) -> bool
    requires { F.IsAlwaysCallable at }
    ensures { (g : ℕ → ℤ) → Rule (F.post at) g → Tells result (s.now ≡ tab (length s.now) g) }
{
    for i in 0..s.len() {
        let n = s[i];
        if n != at(i) {
            return false;
        }
    }
    true
}
