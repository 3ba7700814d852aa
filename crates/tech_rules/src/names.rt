ghost use Rattle.std.specs.Prelude.{◌≡◌};
ghost use Rattle.tech_rules.specs.Names.{holds, are_different, share_a_name};

use or_geom::Name;

/// Whether the name is one of these.
pub fn holds(names: &[Name], name: &[u8]) -> bool
    ensures { result ≡ holds name.now names.now }
{
    names.iter().any(|other| other.is(name))
}

/// Whether no two of the names are the same.
pub fn are_different(names: &[Name]) -> bool
    ensures { result ≡ are_different names.now }
{
    for (i, name) in names.iter().enumerate() {
        if holds(&names[i + 1..], name.as_bytes()) {
            return false;
        }
    }
    true
}

/// Whether one of the names is one of the others.
pub fn share_a_name(names: &[Name], others: &[Name]) -> bool
    ensures { result ≡ share_a_name names.now others.now }
{
    names.iter().any(|name| holds(others, name.as_bytes()))
}
