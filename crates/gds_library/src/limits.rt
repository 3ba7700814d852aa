/// The first byte of a nanometre in metres, as an eight-byte real: the exponent.
pub const NANOMETRE_EXPONENT: u8 = 0x39;

/// The mantissa of a nanometre in metres, as an eight-byte real.
pub const NANOMETRE: u64 = 0x44B82FA09B5A54;

/// By how much a mantissa may differ from it, for rounding.
pub const ROUNDING: u64 = 256;

/// The first byte of STRANS where a reference is reflected.
pub const MIRRORED: u8 = 0x80;

/// The greatest width of a path.
pub const MOST_WIDTH: i32 = 0x7FFFFFFF;

/// The most columns or rows of an array.
pub const MOST_COUNT: i16 = 32767;
