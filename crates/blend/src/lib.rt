// Porter-Duff blending of premultiplied bytes under a coverage of 0 to 16 samples.
#![tactic(auto)]

pub mod bytewise;
pub mod factor;
pub mod masked;
pub mod row;
pub mod span;
pub mod step;

pub use crate::factor::is_mode;
pub use crate::row::{composite_masked_runs, composite_painted_runs, composite_runs};
pub use crate::step::composite;
use color::Pixel;

// What the step on one pixel answers: 0 and the new pixel, or a refusal and the old one. C takes this record, so its code is a number.
#[repr(C)]
#[derive(Clone, Copy)]
pub struct Composited {
    pub code: u32,
    pub pixel: Pixel,
}
