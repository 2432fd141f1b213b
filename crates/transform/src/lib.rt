// The colour transformation of a draw's paint: every channel times its scale, and its bias added.
//
//     convert       the eight floats as whole numbers, once for a draw
//     reciprocals   bytes out of premultiplied form by a table, without a division
//     bytewise      rows byte by byte, where each channel is to be transformed as it stands
//     pixels        premultiplied bytes transformed: a pixel, and the pixels of a row
#![tactic(auto)]

pub mod bytewise;
pub mod convert;
pub mod pixels;
pub mod reciprocals;

pub use crate::convert::fixed_transform;
pub use crate::pixels::{transform_pixel, transform_row};

// The scales and biases before conversion, by the names that document 001 gives them.
#[derive(Clone, Copy)]
pub struct ColorTransform {
    pub sr: f32,
    pub sg: f32,
    pub sb: f32,
    pub sa: f32,
    pub br: f32,
    pub bg: f32,
    pub bb: f32,
    pub ba: f32,
}

// The same in 1/256.
#[derive(Clone, Copy)]
pub struct FixedTransform {
    pub sr: i32,
    pub sg: i32,
    pub sb: i32,
    pub sa: i32,
    pub br: i32,
    pub bg: i32,
    pub bb: i32,
    pub ba: i32,
}
