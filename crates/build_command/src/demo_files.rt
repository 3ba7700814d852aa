ghost use Rattle.std.specs.Prelude.{◌≡◌, IfOk};
ghost use Rattle.command_steps.specs.Writing.{HaveAsciiNames};
ghost use Rattle.build_command.specs.Demonstration.{demo_files};

use demo_kit::demo;
use or_geom::{Items, Memory, Name};
use or_host::MemFile;
use std::alloc::Global;

/// A file of this name.
fn file(alloc: Global, name: &str, bytes: Items<u8>) -> Result<MemFile, Memory>
    ensures name { IfOk result (λ file. file.name ≡ name.now) }
    ensures bytes { IfOk result (λ file. file.bytes ≡ bytes) }
{
    Ok(MemFile {
        name: Name::from_bytes(alloc, name.as_bytes())?,
        bytes,
    })
}

fn made_files(alloc: Global, number: u16) -> Result<Vec<MemFile>, Memory>
    ensures { IfOk result (λ files. files.items ≡ demo_files number) }
{
    let kit = demo(alloc, u32::from(number))?;
    let mut files = Vec::new(alloc);
    files.push(file(alloc, "demo.toml", kit.config)?)?;
    files.push(file(alloc, "demo_tech.toml", kit.tech)?)?;
    files.push(file(alloc, "demo_tech.gds", kit.gds)?)?;
    files.push(file(alloc, "demo_tech.sp", kit.sp)?)?;
    Ok(files)
}

/// The four files of the demonstration with this number, in the order in which they are written.
pub fn demo_files(alloc: Global, number: u16) -> Result<Vec<MemFile>, Memory>
    ensures files { IfOk result (λ files. files.items ≡ demo_files number) }
    ensures names { IfOk result (λ files. HaveAsciiNames files.items) }
{
    Ok(made_files(alloc, number)?)
}
