// Whole numbers: floor division, square roots, little-endian reads, and the exact whole number that a float becomes.
#![tactic(auto)]

pub mod convert;
pub mod floats;
pub mod floor;
pub mod little;
pub mod root;

pub use crate::convert::{at_most, stop_offset, to_whole};
pub use crate::floats::f32_at;
pub use crate::floor::{floor_div, floor_mod};
pub use crate::little::{i16_at, i32_at, u16_at, u32_at};
pub use crate::root::isqrt_near;

// Why the offset of a stop is none.
#[derive(Clone, Copy, PartialEq, Eq)]
pub enum OffsetError {
    Outside,
    NotANumber,
}
