ghost use Rattle.std.specs.List.{list_all};
ghost use Rattle.std.specs.Prelude.{◌≡◌};
ghost use Rattle.gds_records.specs.Record.{form_of, has_form, is_record_text, is_printable, unpadded};

use crate::code::*;
use crate::limits::{GREATEST_CHARACTER, LEAST_CHARACTER, MOST_CHARACTERS};

/// What the data of a record may be.
#[derive(Clone, Copy)]
pub enum Form {
    /// So many bytes.
    Sized(usize),
    /// One point or more, of eight bytes each.
    Points,
    /// A text of 1 to 512 printable characters, and a zero byte where their number is odd.
    Text,
    /// Any even number of bytes.
    Even,
    /// Nothing: no such record is known.
    Unknown,
}

/// The form that the table of records gives a code.
pub fn form_of_code(code: u16) -> Form
    ensures { result ≡ form_of code }
{
    match code {
        ENDLIB | ENDSTR | BOUNDARY | PATH | SREF | AREF | TEXT | ENDEL | NODE | BOX => Form::Sized(
            0,
        ),
        HEADER | LAYER | DATATYPE | TEXTTYPE | PRESENTATION | STRANS | PATHTYPE | GENERATIONS =>
            Form::Sized(2),
        ELFLAGS | NODETYPE | PROPATTR | BOXTYPE => Form::Sized(2),
        WIDTH | COLROW | PLEX | BGNEXTN | ENDEXTN => Form::Sized(4),
        MAG | ANGLE => Form::Sized(8),
        UNITS => Form::Sized(16),
        BGNLIB | BGNSTR => Form::Sized(24),
        XY => Form::Points,
        LIBNAME | STRNAME | SNAME | STRING | PROPVALUE => Form::Text,
        REFLIBS | FONTS | ATTRTABLE => Form::Even,
        _ => Form::Unknown,
    }
}

/// A text without the zero byte after one of odd length.
pub fn text_in(content: &[u8]) -> &[u8]
    ensures { result.now ≡ unpadded content.now }
{
    match content {
        [front @ .., 0] => front,
        _ => content,
    }
}

fn printable(text: &[u8]) -> bool
    ensures { result ≡ list_all is_printable text.now }
{
    text.iter()
        .all(|b| LEAST_CHARACTER <= *b && *b <= GREATEST_CHARACTER)
}

fn is_short_text(text: &[u8]) -> bool
    ensures { result ≡ is_record_text text.now }
{
    1 <= text.len() && text.len() <= MOST_CHARACTERS && printable(text)
}

/// Whether data has a form.
pub fn suits(form: Form, content: &[u8]) -> bool
    ensures { result ≡ has_form form content.now }
{
    match form {
        Form::Sized(n) => content.len() == n,
        Form::Points => 8 <= content.len() && content.len() % 8 == 0,
        Form::Text => content.len() % 2 == 0 && is_short_text(text_in(content)),
        Form::Even => content.len() % 2 == 0,
        Form::Unknown => false,
    }
}
