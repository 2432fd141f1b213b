// Paths: the matrix, the pen's walk over segments, and their rules.
#![tactic(auto)]

pub mod commands;
pub mod curves;
pub mod edges;
pub mod moves;
pub mod plain;
pub mod rules;
pub mod tracing;
pub mod transform;

use codes::Code;

// The matrix before conversion.
#[derive(Clone, Copy)]
pub struct Matrix {
    pub sx: f32,
    pub shy: f32,
    pub shx: f32,
    pub sy: f32,
    pub tx: f32,
    pub ty: f32,
}

// The matrix in 1/65,536.
#[derive(Clone, Copy)]
pub struct FixedMatrix {
    pub sx: i64,
    pub shy: i64,
    pub shx: i64,
    pub sy: i64,
    pub tx: i64,
    pub ty: i64,
}

// A point: of a path in its own units, or on the surface in 1/256 pixel.
#[derive(Clone, Copy)]
pub struct Point {
    pub x: i32,
    pub y: i32,
}

// The pen of document 003: start of the subpath, current point, last control point.
#[derive(Clone, Copy)]
pub struct Pen {
    pub start: Point,
    pub current: Point,
    pub control: Point,
}

// What a segment draws from the current point: a line (degree 1), a quad (2) or a cubic (3).
#[derive(Clone, Copy)]
pub struct Curve {
    pub degree: usize,
    pub p1: Point,
    pub p2: Point,
    pub p3: Point,
}

// A straight piece of outline on the surface, in 1/256 pixel.
#[derive(Clone, Copy)]
pub struct Edge {
    pub x0: i32,
    pub y0: i32,
    pub x1: i32,
    pub y1: i32,
}

// A segment byte, split: the command, and whether the coordinates are relative.
#[derive(Clone, Copy)]
pub struct Segment {
    pub command: u8,
    pub relative: bool,
}

// How far a walk over segments has come: the pen, and the number of coordinates used.
#[derive(Clone, Copy)]
pub struct Walk {
    pub pen: Pen,
    pub used: usize,
}

// The walk after a segment, and the segment's points.
#[derive(Clone, Copy)]
pub struct Traced {
    pub walk: Walk,
    pub curve: Curve,
}

// A path's first refused segment, and the code of its refusal.
#[derive(Clone, Copy, PartialEq, Eq)]
pub struct PathFault {
    pub code: Code,
    pub segment: usize,
}
