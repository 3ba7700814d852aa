ghost use Rattle.std.specs.Prelude.{◌≡◌};
ghost use Rattle.std.specs.Str.{IsAscii};
ghost use Rattle.or_host.specs.Fault.{HasCause, NamesLast};
ghost use Rattle.command_steps.specs.Writing.{HaveAsciiNames, WritesAll, some_write_failed, unwritten_in};

use or_geom::Name;
use or_host::{MemFile, Store, WriteFail};
use std::str;

/// The first of several files that wasn't written, and why.
#[derive(Clone, Copy)]
pub struct Unwritten<'a> {
    pub file: &'a MemFile,
    pub fail: WriteFail,
}

/// A name of ASCII characters as text.
pub fn file_text(name: &Name) -> &str
    requires { IsAscii name.now }
    ensures { result.now ≡ name.now }
{
    match str::from_utf8(name.as_bytes()) {
        Ok(text) => text,
        Err(_) => unreachable!(),
    }
}

/// Writes files one after another, up to the first that isn't written.
pub fn write_files<'a, S: Store>(files: &'a [MemFile], store: &mut S) -> Result<(), Unwritten<'a>>
    requires { HaveAsciiNames files.now }
    ensures written { WritesAll files.now (S.state store.old).files (S.state store.new).files result }
    ensures cause { HasCause (S.state store.old).faults (S.state store.new).faults (some_write_failed result) }
    ensures named { NamesLast (unwritten_in result) (S.state store.old).failed (S.state store.new).failed }
{
    for file in files {
        match store.write(file_text(&file.name), file.bytes.as_slice()) {
            Ok(()) => {}
            Err(fail) => return Err(Unwritten { file, fail }),
        }
    }
    Ok(())
}
