ghost use Rattle.std.specs.Prelude.{◌≡◌, ◌↔◌, IsTrue, IfSome, IsNone, map, length};
ghost use Rattle.std.specs.Bool.{beq};
ghost use Rattle.std.specs.List.{list_all, zip};
ghost use Rattle.cell_roles.specs.Tables.{TableRow, fits, next_bits};
ghost use Rattle.role_tables.specs.Columns.{BeginsWithColumn, HasNoColumn, FitOne, are_of, wanted_of, next_of};
ghost use Rattle.role_tables.specs.Columns.{allows, allow_one, next_bit};
ghost use Rattle.role_tables.specs.Point.{matches, point_with, MatchOnePoint, row_act};
ghost use Rattle.role_tables.specs.Table.{IsWrittenAs};

use cell_roles::LeafRole;
use std::marker::Model;

/// What an input or a stored bit may be asked for: 0, 1 or either.
const WANTED: &[u8] = b"01x";
/// What a pin may be driven to: 0 or 1, weakly low or high, or nothing.
const DRIVES: &[u8] = b"01lhz";
/// Whether two pins are joined.
const JOINS: &[u8] = b"j-";
/// What a stored bit may become: 0, 1 or what it is.
const NEXT: &[u8] = b"01=";

/// A row of a table, cut into its columns: a character for each input, stored bit, driven pin, joined pair and next
/// stored bit. Contracts see the row that they are.
#[derive(Debug, Drop)]
pub struct RowText<'a> {
    looks: &'a [u8],
    stored: &'a [u8],
    drives: &'a [u8],
    joins: &'a [u8],
    next: &'a [u8],
}

impl<'a> Model for RowText<'a> {
    ghost use Rattle.cell_roles.specs.Tables.{TableRow};

    ghost Value = { TableRow };

    ghost use Rattle.role_tables.specs.Columns.{columns_row, AreInAlphabets};

    ghost view = { columns_row };

    ghost invariant = { AreInAlphabets };
}

/// Whether each character is one of the alphabet.
fn are_of(alphabet: &[u8], text: &[u8]) -> bool
    ensures { result ≡ are_of alphabet.now text.now }
{
    text.iter().all(|c| alphabet.contains(c))
}

/// Cuts so many characters of the alphabet and the separator behind them off the text.
fn cut<'a>(
    text: &'a [u8],
    count: usize,
    alphabet: &[u8],
    separator: &[u8],
) -> Option<(&'a [u8], &'a [u8])>
    ensures some { IfSome result (λ p. BeginsWithColumn alphabet.now count separator.now text.now p.0.now p.1.now) }
    ensures none { IsNone result → HasNoColumn alphabet.now count separator.now text.now }
{
    let (column, rest) = text.split_at_checked(count)?;
    if !are_of(alphabet, column) {
        return None;
    }
    let rest = rest.strip_prefix(separator)?;
    Some((column, rest))
}

/// Whether the character asks for the value, or for either.
fn allows(wanted: u8, value: bool) -> bool
    ensures { result ≡ allows wanted value }
{
    match wanted {
        b'0' => !value,
        b'1' => value,
        _ => true,
    }
}

/// Whether some value is one that both characters ask for.
fn allow_one(a: u8, b: u8) -> bool
    ensures { result ≡ allow_one a b }
{
    (allows(a, false) && allows(b, false)) || (allows(a, true) && allows(b, true))
}

/// What a stored bit becomes by the character.
fn next_bit(next: u8, bit: bool) -> bool
    ensures { result ≡ next_bit next bit }
{
    match next {
        b'0' => false,
        b'1' => true,
        _ => bit,
    }
}

fn all_allow(wanted: &[u8], values: &[bool]) -> bool
    ensures { result ≡ list_all (λ p. allows p.0 p.1) (zip wanted.now values.now) }
{
    let mut pairs = wanted.iter().zip(values);
    pairs.all(|(c, value)| allows(*c, *value))
}

fn all_allow_one(a: &[u8], b: &[u8]) -> bool
    ensures { result ≡ list_all (λ p. allow_one p.0 p.1) (zip a.now b.now) }
{
    let mut pairs = a.iter().zip(b);
    pairs.all(|(x, y)| allow_one(*x, *y))
}

/// Whether a column asks for these values.
fn fits(wanted: &[u8], values: &[bool]) -> bool
    ensures { result ≡ fits (map wanted_of wanted.now) values.now }
{
    wanted.len() == values.len() && all_allow(wanted, values)
}

/// Whether there are values that both columns ask for.
fn fit_one(a: &[u8], b: &[u8]) -> bool
    ensures { IsTrue result ↔ FitOne (map wanted_of a.now) (map wanted_of b.now) }
{
    a.len() == b.len() && all_allow_one(a, b)
}

fn all_become_same(a: &[u8], b: &[u8], stored: &[bool]) -> bool
    ensures { result ≡ list_all (λ p. beq (next_bit p.0.0 p.1) (next_bit p.0.1 p.1))
        (zip (zip a.now b.now) stored.now) }
{
    let mut triples = a.iter().zip(b).zip(stored);
    triples.all(|((x, y), bit)| next_bit(*x, *bit) == next_bit(*y, *bit))
}

/// Whether stored bits become the same by both columns.
fn becomes_same(a: &[u8], b: &[u8], stored: &[bool]) -> bool
    requires first { length a.now ≡ length stored.now }
    requires second { length b.now ≡ length stored.now }
    ensures { IsTrue result ↔ (next_bits (map next_of a.now) stored.now ≡ next_bits (map next_of b.now) stored.now) }
{
    all_become_same(a, b, stored)
}

impl<'a> RowText<'a> {
    /// The row of the role that the text is, if it is one.
    pub fn cut(role: LeafRole, text: &'a [u8]) -> Option<RowText<'a>>
        ensures some { IfSome result (IsWrittenAs role text.now) }
        ensures none { IsNone result → (row : TableRow) → IsWrittenAs role text.now row → ⊥ }
    {
        let (looks, behind_looks) = cut(text, role.inputs().len(), WANTED, b"/")?;
        let (stored, behind_stored) = cut(behind_looks, role.stored().len(), WANTED, b" = ")?;
        let (drives, behind_drives) = cut(behind_stored, role.driven().len(), DRIVES, b"/")?;
        let (joins, behind_joins) = cut(behind_drives, role.joined().len(), JOINS, b"/")?;
        let (next, behind_next) = cut(behind_joins, role.stored().len(), NEXT, b"")?;
        if !behind_next.is_empty() {
            return None;
        }
        Some(RowText {
            looks,
            stored,
            drives,
            joins,
            next,
        })
    }

    /// Whether the row matches the point with these inputs and stored bits.
    pub fn matches(&self, inputs: &[bool], stored: &[bool]) -> bool
        ensures { result ≡ matches self.now (point_with inputs.now stored.now) }
    {
        fits(self.looks, inputs) && fits(self.stored, stored)
    }

    /// Whether some point is one that both rows match.
    pub fn shares_point(&self, other: &RowText) -> bool
        ensures { IsTrue result ↔ MatchOnePoint self.now other.now }
    {
        fit_one(self.looks, other.looks) && fit_one(self.stored, other.stored)
    }

    /// Whether both rows say the same where the stored bits are these.
    pub fn says_same(&self, other: &RowText, stored: &[bool]) -> bool
        requires first { length self.now.next ≡ length stored.now }
        requires second { length other.now.next ≡ length stored.now }
        ensures { IsTrue result ↔ (row_act self.now stored.now ≡ row_act other.now stored.now) }
    {
        self.drives == other.drives
            && self.joins == other.joins
            && becomes_same(self.next, other.next, stored)
    }
}
