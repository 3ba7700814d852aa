use or_geom::Name;

/// What a configuration asks for. Its files are named after `tech_name` (`.toml`, `.gds`, `.sp`), and the views after
/// `output_path` and `output_name`.
#[derive(Debug, Drop)]
pub struct Config {
    /// Bits of a word.
    pub word_size: u32,
    /// Words of all banks.
    pub num_words: u32,
    /// Words of a row, where the plan isn't to choose.
    pub words_per_row: Option<u32>,
    pub num_banks: u32,
    /// Bits that one mask bit lets a write change: `word_size` where words are written whole.
    pub write_size: u32,
    pub tech_name: Name,
    pub output_path: Option<Name>,
    pub output_name: Name,
}
