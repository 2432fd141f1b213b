// The error context: a number that each call may change, and that keeps the first code other than 0 until it is asked for.
#![tactic(auto)]

ghost use Rattle.std.specs.Prelude.{◌≡◌};
ghost use Rattle.context.specs.Context.{keep, noted, fresh};

// What a caller lends to each call; a fresh one has the code 0.
#[repr(C)]
#[derive(Clone, Copy, PartialEq, Eq)]
pub struct Context {
    // A number, and 0 where there is none, since C reads it.
    pub code: u32,
}

// The code that is kept: the first other than 0.
pub fn kept(was: u32, code: u32) -> u32
    ensures { result ≡ keep was code }
{
    if was == 0 { code } else { was }
}

impl Context {
    // Notes a call's code.
    pub fn note(&mut self, code: u32)
        ensures { self.new ≡ noted self.old code }
    {
        self.code = kept(self.code, code);
    }

    // Asks for the code, and sets 0.
    pub fn take(&mut self) -> u32
        ensures { (result ≡ self.old.code) × (self.new ≡ fresh) }
    {
        std::mem::replace(&mut self.code, 0)
    }
}
