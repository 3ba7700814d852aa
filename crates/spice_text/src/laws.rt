ghost use Rattle.spice_text.specs.Appended.{AppendedIsRead};
ghost use Rattle.spice_text.specs.ReadDecks.{DecksAreLowered, DecksAreWritable, SubcktNamesAreReadable};

/// Subcircuits that are written after the bytes of a deck are read after the deck's own.
pub fn appended_is_read()
    ensures { AppendedIsRead }
{}

/// What is read has its names in lower case: where it can be written, it is read back as the same.
pub fn decks_are_lowered()
    ensures { DecksAreLowered }
{}

/// What is read can be written, where it has no lines that are kept as they stand and no name that holds a CR. A CR
/// that doesn't end a line is part of a word, and no written name has one.
pub fn decks_are_writable()
    ensures { DecksAreWritable }
{}

/// The name of a subcircuit that is read isn't empty and holds no `=`.
pub fn subckt_names_are_readable()
    ensures { SubcktNamesAreReadable }
{}
