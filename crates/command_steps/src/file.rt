ghost use Rattle.std.specs.Prelude.{◌≡◌, ◌++◌, codes, false, IfOk, string_bytes};
ghost use Rattle.tech_rules.specs.Facts.{IsTech};
ghost use Rattle.command_steps.specs.File.{IsFile, IsTechnologyFile};
ghost use Rattle.command_steps.specs.Reading.{HasRead};
ghost use Rattle.command_steps.specs.Outcome.{is_usage_outcome};

use or_geom::{Items, Memory, Name};
use or_host::{ReadFail, Store};
use reply_lines::Refusal;
use std::alloc::Global;
use tech_rules::{Tech, read_tech};

/// The longest file that is read, 64 MiB.
const LIMIT: u64 = 67_108_864;

/// The bytes of a file.
pub fn read_file<S: Store>(alloc: Global, name: &str, store: &mut S) -> Result<Items<u8>, Refusal>
    ensures read { HasRead (λ files. IsFile files name.now) result (S.state store.old) (S.state store.new) }
    ensures words { is_usage_outcome result ≡ false }
{
    // The name is taken first, so that a read that failed can be told.
    let owned = Name::from_bytes(alloc, name.as_bytes())?;
    match store.read(name, LIMIT) {
        Ok(Some(bytes)) => Ok(Items::from_vec(bytes)),
        Ok(None) => Err(Refusal::NoFile { name: owned }),
        Err(ReadFail::TooLong) => Err(Refusal::TooLong { name: owned }),
        Err(ReadFail::Failed) => Err(Refusal::ReadFailed { name: owned }),
        Err(ReadFail::Memory) => Err(Refusal::Memory),
    }
}

/// The technology that a file is.
pub fn read_technology<S: Store>(alloc: Global, name: &str, store: &mut S) -> Result<Tech, Refusal>
    ensures read { HasRead (λ files. IsTechnologyFile files name.now) result (S.state store.old) (S.state store.new) }
    ensures good { IfOk result IsTech }
    ensures words { is_usage_outcome result ≡ false }
{
    let bytes = read_file(alloc, name, store)?;
    read_tech(alloc, bytes.as_slice()).map_err(Refusal::Tech)
}

/// The name of a file: a name with an ending.
pub fn with_ending(alloc: Global, name: &str, ending: &str) -> Result<String, Memory>
    ensures { IfOk result (λ file. string_bytes file ≡ name.now ++ ending.now) }
{
    let mut file = String::from_str(alloc, name)?;
    file.push_str(ending)?;
    Ok(file)
}

/// The technology of this name, which is the file of the name and `.toml`.
pub fn read_technology_under<S: Store>(
    alloc: Global,
    name: &str,
    store: &mut S,
) -> Result<Tech, Refusal>
    ensures read { HasRead (λ files. IsTechnologyFile files (name.now ++ codes ".toml")) result (S.state store.old)
        (S.state store.new) }
    ensures good { IfOk result IsTech }
    ensures words { is_usage_outcome result ≡ false }
{
    let file = with_ending(alloc, name, ".toml")?;
    read_technology(alloc, file.as_str(), store)
}
