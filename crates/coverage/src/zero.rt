// Zeros in all of a slice.
ghost use Rattle.std.specs.Prelude.{◌≡◌, length};
ghost use Rattle.coverage.specs.Scanline.{zeros};

// All numbers 0.
pub fn zero_numbers(s: &mut [i32])
    ensures { s.new ≡ zeros (length s.old) }
{
    s.fill(0);
}
