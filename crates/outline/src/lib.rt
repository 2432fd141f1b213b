// Outlines: the edges of a path, written to a lent run of numbers, and their bounds.
#![tactic(auto)]

pub mod bounds;
pub mod curve;
pub mod extent;
pub mod flatten;
pub mod frame;
pub mod hull;
pub mod store;

// The weights of a curve's four points, over 16 to the power of its degree.
#[derive(Clone, Copy)]
pub struct Weights {
    pub w0: u32,
    pub w1: u32,
    pub w2: u32,
    pub w3: u32,
}
