// The scene file: its blocks, its rules in their order, and its fields.
#![tactic(auto)]

pub mod blocks;
pub mod faults;
pub mod fields;
pub mod header;
pub mod layout;
pub mod rules;
pub mod verdict;

use codes::Code;

// The two sums of a block's check.
#[derive(Clone, Copy, PartialEq, Eq)]
pub struct Checksum {
    pub plain: u16,
    pub weighted: u16,
}

// The words of a block's strips at one place: their sum, and the sum of each times its strip's number.
#[derive(Clone, Copy)]
pub struct Column {
    pub all: u32,
    pub late: u32,
}

// The first fault among fields: its code, and the place that the rules met, in the bytes that are judged.
#[derive(Clone, Copy, PartialEq, Eq)]
pub struct FieldFault {
    pub code: Code,
    pub place: u16,
}

// A scene's first fault: its code, the draw number, and the offset in the file.
#[derive(Clone, Copy, PartialEq, Eq)]
pub struct Fault {
    pub code: Code,
    pub draw: usize,
    pub offset: usize,
}
