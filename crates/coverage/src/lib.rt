// Coverage: how many of a pixel's 16 samples lie inside a path.
#![tactic(auto)]

pub mod band;
mod between;
pub mod clip;
mod column;
pub mod cover;
pub mod covers;
mod edges;
mod marks;
mod samples;
pub mod scissors;
mod walk;
pub mod zero;

pub use crate::band::filter_edges;
pub use crate::cover::coverage_runs;
pub use crate::scissors::scissor_row;

// The numbers that groups of marks take: two for each of 16 groups.
const GROUP_NUMBERS: usize = 32;

// A row of pixels from (x, y) on, how many edges its path has, and the path's fill rule.
#[derive(Clone, Copy)]
pub struct Line {
    pub edges: usize,
    pub x: usize,
    pub y: usize,
    pub nonzero: bool,
}

// Where an edge's count begins in a row of columns, and what it counts.
#[derive(Clone, Copy)]
struct Start {
    at: usize,
    by: i32,
}

// Where an edge's count begins in the four sample rows of a row of pixels, and whether it goes up (1) or down (2) past all of them.
#[derive(Clone, Copy)]
struct Crossed {
    way: usize,
    a: usize,
    b: usize,
    c: usize,
    d: usize,
}

// A column in each of four sample rows.
#[derive(Clone, Copy)]
struct Columns {
    a: usize,
    b: usize,
    c: usize,
    d: usize,
}

// An edge that goes up: it crosses the first sample row of a row of pixels at n / 64 d, in columns, and each next one step / 64 d further.
#[derive(Clone, Copy)]
struct Rise {
    n: i64,
    d: i64,
    step: i64,
}

// The winding numbers of four sample rows at one column.
#[derive(Clone, Copy)]
struct Windings {
    a: i32,
    b: i32,
    c: i32,
    d: i32,
}

// A pixel: the winding numbers of its four sample rows at its right end, k of the pixels after it as long as nothing begins, and its own k.
#[derive(Clone, Copy)]
struct Cell {
    a: i32,
    b: i32,
    c: i32,
    d: i32,
    full: u8,
    count: u8,
}

// A rectangle's columns in a row: from start up to end, which is left out.
#[derive(Clone, Copy)]
pub struct Span {
    start: i64,
    end: i64,
}
