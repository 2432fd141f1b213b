// What the programs share: how they are called, files named by arguments, the size of a picture, lines of output, and the picture as text.
// No contract can say what is read or written.
#![tactic(auto)]

pub mod arguments;
pub mod errors;
pub mod files;
pub mod lines;
pub mod numbers;
pub mod output;
pub mod pictures;
pub mod sizes;
pub mod usage;
pub mod words;

// A line of output that is put together from left to right, in fixed memory. What does not fit is left out.
#[derive(Clone, Copy)]
pub struct Line {
    pub bytes: [u8; 160],
    pub length: usize,
}
