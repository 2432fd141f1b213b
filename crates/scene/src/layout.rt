// The scene file's sizes, limits and places: each number of the paper stands here once, under its name.

// Blocks of 512 bytes: 508 of payload, 254 words, then the check of two 16-bit numbers.
pub const BLOCK_BYTES: usize = 512;

pub const PAYLOAD_BYTES: usize = 508;

pub const CHECK_MODULUS: u32 = 65521;

// A draw has four blocks, whose payloads joined are 2,032 bytes.
pub const DRAW_BLOCKS: usize = 4;

pub const DRAW_BYTES: usize = 2032;

// Block 0.
pub const WIDTH_AT: usize = 0;

pub const HEIGHT_AT: usize = 2;

pub const COUNT_AT: usize = 4;

pub const EDITION_AT: usize = 6;

pub const BACKGROUND_AT: usize = 8;

pub const HEADER_END: usize = 12;

pub const SIDE_LIMIT: u32 = 1024;

pub const DRAW_LIMIT: u32 = 64;

// A scene's edition: 0, or 1, whose draws have a colour transformation.
pub const NEW_EDITION: u32 = 1;

// The draw number of what is not in a draw.
pub const NO_DRAW: usize = 64;

// A draw.
pub const FLAGS_AT: usize = 0;

pub const BLEND_AT: usize = 2;

pub const PAINT_TYPE_AT: usize = 4;

pub const SPREAD_AT: usize = 6;

pub const SEGMENT_COUNT_AT: usize = 8;

pub const SCISSOR_COUNT_AT: usize = 9;

pub const STOP_COUNT_AT: usize = 10;

pub const PADDING_AT: usize = 11;

pub const MATRIX_AT: usize = 12;

pub const TRANSLATION_AT: usize = 28;

pub const COLOR_AT: usize = 36;

pub const LINEAR_POINTS_AT: usize = 52;

pub const SCISSORS_AT: usize = 68;

pub const STOPS_AT: usize = 132;

// A radial draw has its circle's five floats in place of the first stop.
pub const RADIAL_AT: usize = STOPS_AT;

pub const SEGMENTS_AT: usize = 772;

pub const SEGMENTS_END: usize = 900;

// The colour transformation's eight floats, in edition 1.
pub const TRANSFORM_AT: usize = SEGMENTS_END;

// Where the coordinates begin, in edition 0 and in edition 1.
pub const OLD_COORDINATES_AT: usize = 900;

pub const NEW_COORDINATES_AT: usize = 932;

// The flags of edition 0 are below this, and those of edition 1, which has one more.
pub const OLD_FLAGS_LIMIT: u32 = 16;

pub const NEW_FLAGS_LIMIT: u32 = 32;

pub const SEGMENT_LIMIT: u8 = 128;

pub const SCISSOR_LIMIT: u8 = 4;

pub const STOP_LIMIT: u8 = 32;

pub const RADIAL_STOP_LIMIT: u8 = 31;

pub const SCISSOR_BYTES: usize = 16;

pub const STOP_BYTES: usize = 20;

pub const STOP_FLOATS: usize = 5;

pub const RADIAL_FLOATS: usize = 5;

pub const TRANSFORM_FLOATS: usize = 8;

// The limit of the linear points' floats, 4,096, as a power of 2.
pub const POINT_LIMIT_LOG: u32 = 12;

// That of a circle's floats, 1,024.
pub const RADIAL_LIMIT_LOG: u32 = 10;

// Paint types and spread modes. They are numbers, since a file can hold any and the rules are the test (`is_paint`, `is_spread`).
pub const PAINT_COLOR: u32 = 0x1B00;

pub const PAINT_LINEAR: u32 = 0x1B01;

pub const PAINT_RADIAL: u32 = 0x1B02;

pub const SPREAD_PAD: u32 = 0x1C00;

pub const SPREAD_REFLECT: u32 = 0x1C02;
