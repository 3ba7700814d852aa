ghost use Rattle.written_layout.specs.SameFlat.{TurningKeepsFlat, WritingKeepsFlat};

use gds_stream::libraries_are_unique;

/// A writable library with its boundaries turned, as it is written, has the flat shapes and labels of the library
/// itself, and the same fault where it has none.
pub fn turning_keeps_flat()
    ensures { TurningKeepsFlat }
{}

/// So has every library that the written bytes spell.
pub fn writing_keeps_flat()
    ensures { WritingKeepsFlat }
{
    // The call does nothing when the program runs: its contract is the law that bytes spell one library.
    libraries_are_unique();
}
