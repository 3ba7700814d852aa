/// The files of a read-only memory's configuration and of its words.
#[derive(Clone, Copy)]
pub struct RomFiles<'a> {
    pub config: &'a str,
    pub content: &'a str,
}

/// What is built, and how many workers may do it: 1 to 64.
#[derive(Clone, Copy)]
pub struct Making<'a> {
    pub asked: BuildKind<'a>,
    pub workers: u8,
}

/// What is built.
#[derive(Clone, Copy)]
pub enum BuildKind<'a> {
    /// The memory of a configuration: `build CONFIG WORKERS`.
    Build { config: &'a str },
    /// The demonstration with a number: `demo N WORKERS`.
    Demo { number: u16 },
    /// The read-only memory of a configuration and of the words of a data file: `rom CONFIG DATA WORKERS`.
    Rom(RomFiles<'a>),
}
