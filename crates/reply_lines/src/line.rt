ghost use Rattle.std.specs.Prelude.{◌≡◌, ◌++◌, ◌∷◌, [], IfOk, OnOk};
ghost use Rattle.std.specs.Fmt.{decimal, signed_decimal};
ghost use Rattle.reply_lines.specs.Pins.{pin_text};

use itoa::Buffer;
use or_geom::Memory;
use std::alloc::Global;
use std::marker::Model;

/// Room for a line as most are, so that its buffer doesn't grow.
const LINE_BYTES: usize = 64;

/// A printed line in the making: words with single spaces between them, in one buffer. Behind a line that is ended the
/// next one may begin, in the same buffer. Contracts see it as its bytes so far.
#[derive(Debug, Drop)]
pub struct ReplyLine {
    text: Vec<u8>,
}

impl Model for ReplyLine {
    ghost use Rattle.std.specs.Prelude.{List, ℕ};

    ghost Value = { List ℕ };

    ghost view = { λ l. l.text.items };
}

impl ReplyLine {
    /// No word yet, and room for so many bytes.
    pub(crate) fn with_room(alloc: Global, room: usize) -> Result<Self, Memory>
        ensures { IfOk result (λ line. line ≡ []) }
    {
        Ok(ReplyLine {
            text: Vec::with_capacity(alloc, room)?,
        })
    }

    /// A line that begins with a word.
    pub fn of(alloc: Global, word: &[u8]) -> Result<Self, Memory>
        ensures { IfOk result (λ line. line ≡ word.now) }
    {
        let mut line = Self::with_room(alloc, LINE_BYTES)?;
        line.first(word)?;
        Ok(line)
    }

    /// A line that begins with a number.
    pub fn of_number(alloc: Global, number: u64) -> Result<Self, Memory>
        ensures { IfOk result (λ line. line ≡ decimal number) }
    {
        let mut line = Self::with_room(alloc, LINE_BYTES)?;
        line.first_number(number)?;
        Ok(line)
    }

    /// Adds the first word of a line, as it stands.
    pub(crate) fn first(&mut self, word: &[u8]) -> Result<(), Memory>
        ensures { OnOk result (self.new ≡ self.old ++ word.now) }
    {
        Ok(self.text.extend_from_slice(word)?)
    }

    /// Adds a number as the first word of a line.
    pub(crate) fn first_number(&mut self, number: u64) -> Result<(), Memory>
        ensures { OnOk result (self.new ≡ self.old ++ decimal number) }
    {
        let mut buffer = Buffer::new();
        self.first(buffer.format(number).as_bytes())
    }

    /// Adds a space and a word as it stands.
    pub fn word(&mut self, word: &[u8]) -> Result<(), Memory>
        ensures { OnOk result (self.new ≡ self.old ++ 32 ∷ word.now) }
    {
        self.text.push(b' ')?;
        Ok(self.text.extend_from_slice(word)?)
    }

    /// Adds a space and a number.
    pub fn number(&mut self, number: u64) -> Result<(), Memory>
        ensures { OnOk result (self.new ≡ self.old ++ 32 ∷ decimal number) }
    {
        let mut buffer = Buffer::new();
        self.word(buffer.format(number).as_bytes())
    }

    /// Adds a space and a number that may be negative.
    pub fn signed(&mut self, number: i64) -> Result<(), Memory>
        ensures { OnOk result (self.new ≡ self.old ++ 32 ∷ signed_decimal number) }
    {
        let mut buffer = Buffer::new();
        self.word(buffer.format(number).as_bytes())
    }

    /// Adds a space and a pin: its path, `/` and its name; the name alone where the path is empty.
    pub fn pin(&mut self, path: &[u8], name: &[u8]) -> Result<(), Memory>
        ensures { OnOk result (self.new ≡ self.old ++ 32 ∷ pin_text path.now name.now) }
    {
        if path.is_empty() {
            return self.word(name);
        }
        self.word(path)?;
        self.text.push(b'/')?;
        Ok(self.text.extend_from_slice(name)?)
    }

    /// Adds the line's end.
    pub fn end(&mut self) -> Result<(), Memory>
        ensures { OnOk result (self.new ≡ self.old ++ 10 ∷ []) }
    {
        Ok(self.text.push(b'\n')?)
    }

    /// The bytes so far.
    pub fn as_bytes(&self) -> &[u8]
        ensures { result.now ≡ self.now }
    {
        &self.text
    }
}
