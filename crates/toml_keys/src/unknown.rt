ghost use Rattle.std.specs.Prelude.{◌≡◌, map, filter};
ghost use Rattle.std.specs.List.{list_any};
ghost use Rattle.std.specs.Str.{bytes_eq};
ghost use Rattle.std.specs.Option.{option_map};
ghost use Rattle.toml.specs.View.{table_view};
ghost use Rattle.toml_keys.specs.Unknown.{member_keys, is_unknown, least_of};

use toml::Table;

/// The least key of the table, by its bytes, that is none of those that are known.
pub fn first_unknown<'t>(table: &'t Table, known: &[&str]) -> Option<&'t str>
    ensures { option_map (λ key. key.now) result
        ≡ least_of (filter (is_unknown (map (λ k. k.now) known.now)) (member_keys (table_view table.now))) }
{
    // A table has its keys in the order of their bytes.
    for key in table.keys() {
        if is_unknown(known, key.as_str()) {
            return Some(key.as_str());
        }
    }
    None
}

fn is_unknown(known: &[&str], key: &str) -> bool
    ensures { result ≡ is_unknown (map (λ k. k.now) known.now) key.now }
{
    !is_among(known, key)
}

fn is_among(known: &[&str], key: &str) -> bool
    ensures { result ≡ list_any (λ k. bytes_eq k.now key.now) known.now }
{
    known.iter().any(|other| *other == key)
}
