ghost use Rattle.std.specs.Option.{option_map};
ghost use Rattle.std.specs.Prelude.{◌≡◌};
ghost use Rattle.gds_records.specs.Bytes.{cut, broken_record};
ghost use Rattle.gds_records.specs.Record.{is_formed, record_of};

use crate::form::{form_of_code, suits};

/// A record as it stands in a file: its code and its data. Where no whole record stands, as at the end of a file that
/// is cut short, it is not whole, and its data is all that is left.
#[derive(Clone, Copy)]
pub struct Record<'a> {
    pub whole: bool,
    pub code: u16,
    pub content: &'a [u8],
}

/// What can't be cut into records.
fn broken(bytes: &[u8]) -> Record<'_>
    ensures { record_of result.whole result.code result.content.now ≡ broken_record bytes.now }
{
    let code = match bytes {
        [_, _, c, d, ..] => 256 * u16::from(*c) + u16::from(*d),
        _ => 0,
    };
    Record {
        whole: false,
        code,
        content: bytes,
    }
}

/// The first record, and the bytes after it.
#[tactic(auto, unfolding(crate::specs::Bytes::cut))]
pub fn cut_record(bytes: &[u8]) -> Option<(Record<'_>, &[u8])>
    ensures { option_map (λ p. (record_of p.0.whole p.0.code p.0.content.now, p.1.now)) result ≡ cut bytes.now }
{
    if bytes.is_empty() {
        return None;
    }
    let [a, b, c, d, rest @ ..] = bytes else {
        return Some((broken(bytes), &[]));
    };
    let size = 256 * usize::from(*a) + usize::from(*b);
    if 4 <= size && *b % 2 == 0 && size <= rest.len() + 4 {
        let (content, after) = rest.split_at(size - 4);
        let code = 256 * u16::from(*c) + u16::from(*d);
        Some((
            Record {
                whole: true,
                code,
                content,
            },
            after,
        ))
    } else {
        Some((broken(bytes), &[]))
    }
}

/// Whether the record is one of the table, with data of its form.
#[tactic(auto, unfolding(crate::specs::Record::is_formed))]
pub fn formed(found: Record<'_>) -> bool
    ensures { result ≡ is_formed (record_of found.entry.whole found.entry.code found.entry.content.now) }
{
    found.whole && suits(form_of_code(found.code), found.content)
}
