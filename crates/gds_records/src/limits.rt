/// The least character of a text: a blank.
pub const LEAST_CHARACTER: u8 = 0x20;

/// The greatest character of a text: a tilde.
pub const GREATEST_CHARACTER: u8 = 0x7E;

/// The most characters of a text.
pub const MOST_CHARACTERS: usize = 512;

/// The most points that one XY can hold.
pub const MOST_POINTS: usize = 8191;
