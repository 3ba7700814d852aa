ghost use Rattle.std.specs.Prelude.{◌≡◌, IfOk};
ghost use Rattle.std.specs.Option.{option_map};
ghost use Rattle.toml.specs.Parse.{parse_document};
ghost use Rattle.toml.specs.View.{table_view};
ghost use Rattle.toml_keys.specs.Document.{document};

use or_geom::Memory;
use std::alloc::Global;
use std::str;
use toml::Table;

/// The TOML document that the bytes are.
pub fn document_from(alloc: Global, bytes: &[u8]) -> Result<Option<Table>, Memory>
    ensures { IfOk result (λ d. option_map table_view d ≡ document bytes.now) }
{
    match str::from_utf8(bytes) {
        Ok(text) => parsed(alloc, text),
        Err(_) => Ok(None),
    }
}

fn parsed(alloc: Global, text: &str) -> Result<Option<Table>, Memory>
    ensures { IfOk result (λ d. option_map table_view d ≡ parse_document text.now) }
{
    match toml::table_from_str(alloc, text) {
        Ok(table) => Ok(Some(table)),
        Err(error) => {
            if error.is_memory() {
                Err(Memory)
            } else {
                Ok(None)
            }
        }
    }
}
