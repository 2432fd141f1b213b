// Division rounded down, with a positive divisor.
ghost use Rattle.std.specs.Prelude.{◌≡◌, pos, nat_abs, ◌<ℤ◌};
ghost use Rattle.fixed.specs.Floor.{floor_div, floor_mod};

// a / b, rounded down.
pub fn floor_div(a: i64, b: i64) -> i64
    requires { pos 0 <ℤ b }
    ensures { result ≡ floor_div a (nat_abs b) }
{
    a.div_euclid(b)
}

// What is left of a, from 0 to b - 1.
pub fn floor_mod(a: i64, b: i64) -> i64
    requires { pos 0 <ℤ b }
    ensures { result ≡ pos (floor_mod a (nat_abs b)) }
{
    a.rem_euclid(b)
}
