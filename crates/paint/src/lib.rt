// Paint: the colour of a pixel, from a plain colour, a linear gradient or a radial one.
#![tactic(auto)]

pub mod block;
pub mod build;
pub mod chord;
pub mod gradient;
pub mod guesses;
pub mod opacity;
pub mod positions;
pub mod radial;
pub mod radial_row;
pub mod ramp;
pub mod row;
pub mod segments;
pub mod shade;
pub mod stops;
pub mod words;

use color::{Color, Pixel};

// The linear gradient's points in pixels, before conversion.
#[derive(Clone, Copy)]
pub struct LinearPoints {
    pub x0: f32,
    pub y0: f32,
    pub x1: f32,
    pub y1: f32,
}

// The same in 1/256 pixel.
#[derive(Clone, Copy)]
pub struct FixedPoints {
    pub x0: i64,
    pub y0: i64,
    pub x1: i64,
    pub y1: i64,
}

// The radial gradient's circle in pixels, before conversion: its centre, its focal point and its radius.
#[derive(Clone, Copy)]
pub struct RadialPoints {
    pub cx: f32,
    pub cy: f32,
    pub fx: f32,
    pub fy: f32,
    pub r: f32,
}

// The same in 1/16 pixel.
#[derive(Clone, Copy)]
pub struct Circle {
    pub cx: i64,
    pub cy: i64,
    pub fx: i64,
    pub fy: i64,
    pub r: i64,
}

// What a draw paints with.
#[derive(Clone, Copy)]
pub enum Paint {
    Solid(Color),
    Linear(LinearPoints),
    Radial(RadialPoints),
}

// A stop of a ramp: its offset in 1/65,536, and its colour.
#[derive(Clone, Copy)]
pub struct Stop {
    pub offset: u32,
    pub color: Pixel,
}

// A linear gradient as drawing needs it: its points, its spread mode, whether its stops are premultiplied, and how many stops its ramp has. The spread is
// the file's number: `mapped` answers for any, and an enum would ask more of the callers. The stops lie in a lent run of numbers of fixed length (no heap).
#[derive(Clone, Copy)]
pub struct LinearGradient {
    pub points: FixedPoints,
    pub spread: u32,
    pub premultiply: bool,
    pub count: usize,
}

// A radial gradient as drawing needs it.
#[derive(Clone, Copy)]
pub struct RadialGradient {
    pub circle: Circle,
    pub spread: u32,
    pub premultiply: bool,
    pub count: usize,
}

// A gradient of either kind.
#[derive(Clone, Copy)]
pub enum AnyGradient {
    Linear(LinearGradient),
    Radial(RadialGradient),
}

// A and Q of a radial gradient at a pixel, and how they go on along the row: A grows by da, Q by dq, and dq by ddq.
#[derive(Clone, Copy)]
pub struct Place {
    pub a: i64,
    pub q: i64,
    pub dq: i64,
    pub da: i64,
    pub ddq: i64,
}

// Columns of a part of a row, from one to before another.
#[derive(Clone, Copy)]
pub struct Columns {
    pub from: usize,
    pub to: usize,
}

// A floor division: n / d is whole and rest / d, with rest from 0 to d - 1.
#[derive(Clone, Copy)]
pub struct Quotient {
    pub whole: i64,
    pub rest: i64,
}

// A line in whole numbers: what it is at the first place, and what it grows by from one to the next. A channel between two stops is one in parts of
// 2^40, t along a row one in parts of 2^44.
#[derive(Clone, Copy)]
pub struct Line {
    pub first: i64,
    pub step: i64,
}

// A part of a ramp, from one position to before another, between two colours, with a line for each channel. It serves the positions from low on.
#[derive(Clone, Copy)]
pub struct Segment {
    pub low: u32,
    pub from: u32,
    pub to: u32,
    pub left: Pixel,
    pub right: Pixel,
    pub r: Line,
    pub g: Line,
    pub b: Line,
    pub a: Line,
}
