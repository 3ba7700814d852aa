use thiserror::Error;

/// Why bytes are no library. `at` is the place of the first byte of the first record that no library has after the
/// records before it, and `code` is that record's.
#[derive(Clone, Copy, Debug, PartialEq, Eq, Error)]
pub enum GdsFault {
    /// Fewer bytes remain than four or than the record's length, and ENDLIB wasn't read yet.
    #[error("the record at byte {at} is cut short")]
    Truncated { at: u64 },
    /// The record's length is odd or below 4, its code isn't known, or its data hasn't the form of its code. An XY of a
    /// reference or a label has another number of points.
    #[error("record {code:#06x} at byte {at} isn't well formed")]
    BadRecord { at: u64, code: u16 },
    /// The order of records doesn't allow it here.
    #[error("record {code:#06x} at byte {at} is out of place")]
    NotInPlace { at: u64, code: u16 },
    /// The database unit isn't one nanometre.
    #[error("the units at byte {at} aren't nanometres")]
    BadUnits { at: u64 },
    /// An XY of a boundary that isn't closed, or whose sides aren't parallel to the axes or meet elsewhere than
    /// neighbours at their corner.
    #[error("the boundary at byte {at} isn't a simple ring of right angles")]
    NotManhattan { at: u64 },
    /// STRANS, MAG or ANGLE of a reference, COLROW, or XY of an array.
    #[error("the reference at byte {at} can't be placed")]
    BadTransform { at: u64 },
    /// PATHTYPE, WIDTH, BGNEXTN, ENDEXTN or XY of a path.
    #[error("the path at byte {at} can't be drawn")]
    BadPath { at: u64 },
    /// The first byte after ENDLIB that isn't zero.
    #[error("a byte that isn't zero stands at {at}, after the library")]
    TrailingBytes { at: u64 },
    /// A STRNAME that an earlier structure has.
    #[error("the name of a structure stands again at byte {at}")]
    Twice { at: u64 },
    /// No memory was left, whatever the bytes are.
    #[error("out of memory")]
    Memory,
}
