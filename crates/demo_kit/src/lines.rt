ghost use Rattle.std.specs.Prelude.{◌≡◌, ◌++◌, map, OnOk};
ghost use Rattle.demo_kit.specs.Lines.{heading, number_line, quoted, separated, text_line, texts_line};

use itoa::Buffer;
use or_geom::Memory;

/// Adds an empty line and the heading of a block.
#[tactic(auto, unfolding(crate::specs::Lines::heading))]
pub fn write_heading(out: &mut Vec<u8>, title: &str) -> Result<(), Memory>
    ensures { OnOk result (out.new.items ≡ out.old.items ++ heading title.now) }
{
    out.push(b'\n')?;
    out.extend_from_slice(title.as_bytes())?;
    out.push(b'\n')?;
    Ok(())
}

/// Adds a line `key = number`.
#[tactic(auto, unfolding(crate::specs::Lines::number_line))]
pub fn write_number(out: &mut Vec<u8>, key: &str, number: u32) -> Result<(), Memory>
    ensures { OnOk result (out.new.items ≡ out.old.items ++ number_line key.now number) }
{
    let mut buffer = Buffer::new();
    out.extend_from_slice(key.as_bytes())?;
    out.extend_from_slice(b" = ".as_slice())?;
    out.extend_from_slice(buffer.format(number).as_bytes())?;
    out.push(b'\n')?;
    Ok(())
}

/// Adds a line `key = "text"`.
#[tactic(auto, unfolding(crate::specs::Lines::text_line))]
pub fn write_text(out: &mut Vec<u8>, key: &str, text: &str) -> Result<(), Memory>
    ensures { OnOk result (out.new.items ≡ out.old.items ++ text_line key.now text.now) }
{
    out.extend_from_slice(key.as_bytes())?;
    out.extend_from_slice(b" = ".as_slice())?;
    write_quoted(out, text)?;
    out.push(b'\n')?;
    Ok(())
}

/// Adds a line `key = ["text", ..]`.
#[tactic(auto, unfolding(crate::specs::Lines::texts_line))]
pub fn write_texts(out: &mut Vec<u8>, key: &str, texts: &[&str]) -> Result<(), Memory>
    ensures { OnOk result (out.new.items ≡ out.old.items ++ texts_line key.now (map (λ text. text.now) texts.now)) }
{
    out.extend_from_slice(key.as_bytes())?;
    out.extend_from_slice(b" = [".as_slice())?;
    write_separated(out, texts)?;
    out.extend_from_slice(b"]\n".as_slice())?;
    Ok(())
}

/// Adds a text in double quotes.
fn write_quoted(out: &mut Vec<u8>, text: &str) -> Result<(), Memory>
    ensures { OnOk result (out.new.items ≡ out.old.items ++ quoted text.now) }
{
    out.push(b'"')?;
    out.extend_from_slice(text.as_bytes())?;
    out.push(b'"')?;
    Ok(())
}

/// Adds texts in double quotes with a comma and a space between them.
fn write_separated(out: &mut Vec<u8>, texts: &[&str]) -> Result<(), Memory>
    ensures { OnOk result (out.new.items ≡ out.old.items ++ separated (map quoted (map (λ text. text.now) texts.now))) }
{
    let Some((first, others)) = texts.split_first() else {
        return Ok(());
    };
    write_quoted(out, first)?;
    let mut rest = others;
    while let Some((text, after)) = rest.split_first() {
        out.extend_from_slice(b", ".as_slice())?;
        write_quoted(out, text)?;
        rest = after;
    }
    Ok(())
}
