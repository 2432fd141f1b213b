// A scene with spoiled blocks is written again, with the empty draw in place of each draw that the rules refuse.
#![tactic(auto)]

pub mod fresh;
pub mod judge;
pub mod write;

// The code, 0 for none, and how many draws were replaced: C takes it, so the code is a number here.
#[repr(C)]
#[derive(Clone, Copy)]
pub struct Salvaged {
    pub code: u32,
    pub replaced: u32,
}
