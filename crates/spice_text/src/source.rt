ghost use Rattle.std.specs.Prelude.{◌+◌, ◌^◌, ◌<◌, ◌≤◌, length};

/// What is left of a text.
#[derive(Clone, Copy)]
pub struct Source<'a> {
    pub rest: &'a [u8],
    /// How many bytes of the text stand before it.
    pub before: u64,
    /// How many lines of the text stand before it.
    pub lines: u64,
    pub ghost fits: { before + length rest.now < 2 ^ 64 },
    pub ghost counted: { lines ≤ before },
}
