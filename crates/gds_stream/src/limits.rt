/// HEADER: release 600.
pub const VERSION: [u8; 2] = [0x02, 0x58];

/// BGNLIB and BGNSTR: no dates.
pub const NO_DATES: [u8; 24] = [0; 24];

/// UNITS: a nanometre in user units, which are micrometres, and in metres.
pub const NANOMETRES: [u8; 16] = [
    0x3E, 0x41, 0x89, 0x37, 0x4B, 0xC6, 0xA7, 0xF0, 0x39, 0x44, 0xB8, 0x2F, 0xA0, 0x9B, 0x5A, 0x54,
];

/// ANGLE: 90, 180 and 270 degrees.
pub const QUARTER_TURN: [u8; 8] = [0x42, 0x5A, 0, 0, 0, 0, 0, 0];

pub const HALF_TURN: [u8; 8] = [0x42, 0xB4, 0, 0, 0, 0, 0, 0];

pub const THREE_QUARTER_TURN: [u8; 8] = [0x43, 0x10, 0xE0, 0, 0, 0, 0, 0];
