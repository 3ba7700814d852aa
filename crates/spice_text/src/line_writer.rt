ghost use Rattle.std.specs.Prelude.{◌≤◌};

/// A text, and how many words its last line has, which isn't ended yet where there are some.
#[derive(Drop)]
pub struct LineWriter {
    pub text: Vec<u8>,
    pub count: u8,
    pub ghost short: { count ≤ 12 },
}
