//! SPICE: texts that are refused, a text that is read, decks that are written, and the flat rows of a deck of two
//! levels.

use netlist::{Deck, Rows, Subckt};
use or_geom::Name;
use spice_netlist::{FlatFault, flat_rows};
use spice_text::{SpiceFault, are_writable, read_spice, write_spice};
use std::alloc::Global;
use std::process::Abort;
use std::test::Fail;

fn check_fault(rt: &impl Abort, alloc: Global, text: &[u8], wanted: SpiceFault) {
    let given = match read_spice(alloc, text) {
        Ok(_) => None,
        Err(fault) => Some(fault),
    };
    assert_eq!(rt; given, Some(wanted));
}

#[test]
fn texts_that_are_refused(rt: HostRuntime) {
    let alloc = rt.alloc();
    let fault = SpiceFault::NotAscii { at: 12 };
    check_fault(&rt, alloc, b"+ a\n.GLOBAL\n\x7F", fault);
    let fault = SpiceFault::OutsideSubckt { line: 2 };
    check_fault(&rt, alloc, b"\nr1 a b\n", fault);
    let fault = SpiceFault::Unclosed { line: 2 };
    check_fault(&rt, alloc, b".SUBCKT a p\n.ENDS b\n", fault);
    let fault = SpiceFault::Unclosed { line: 2 };
    check_fault(&rt, alloc, b"* c\n.SUBCKT a p\nxi p\n", fault);
    let fault = SpiceFault::Duplicate { line: 1 };
    check_fault(&rt, alloc, b".SUBCKT a p P\n.ENDS\n", fault);
    let fault = SpiceFault::Refused { line: 2 };
    check_fault(&rt, alloc, b".subckt a\n.global vdd\n", fault);
    let fault = SpiceFault::BadLine { line: 2 };
    check_fault(&rt, alloc, b"* c\n+ a\n", fault);
}

/// Lines that end by CRLF, a comment between continued lines, words with `=`, and `.END` before the text ends.
#[test]
fn a_text_that_is_read(rt: HostRuntime) -> Result<(), Fail> {
    let text =
        b".SUBCKT Inv A\r\n* c\r\n+ Z\r\nX1 a B Sub w=1 c\r\nr1 a b\r\n.ENDS\r\n.END\r\nrest";
    let deck = read_spice(rt.alloc(), text).ok().ok_or("refused")?;
    assert_eq!(rt; deck.used, 58);
    for subckt in deck.subckts.as_slice() {
        assert!(rt; subckt.name.is(b"inv"));
        assert_eq!(rt; subckt.ports.as_slice().len(), 2);
        assert_eq!(rt; subckt.raw.as_slice().len(), 1);
        for instance in subckt.instances.as_slice() {
            assert!(rt; instance.name.is(b"x1"));
            assert!(rt; instance.of.is(b"sub"));
            assert_eq!(rt; instance.nodes.as_slice().len(), 2);
        }
    }
    assert_eq!(rt; deck.subckts.as_slice().len(), 1);
    Ok(())
}

/// Lines of thirteen, of twelve and of twenty-eight words.
const WIDE: &[u8] =
    b"* wide\n.Subckt WIDE A B C D E F G H\n+ I J K\nX1 A B C D E F G H I J Leaf l=1\nxTwo A B C D E F G H I J K A B C D E F G H I J K A\r\n+B C\n\n+ D\tLEAF\n.ends wide\n.SUBCKT leaf p\n.ENDS\n.END\n";

/// The same, as it is written: a line has twelve words, and what is left of it stands on lines that begin with `+ `.
const WRITTEN: &[u8] =
    b".SUBCKT wide a b c d e f g h i j\n+ k\nx1 a b c d e f g h i j leaf\nxtwo a b c d e f g h i j k\n+ a b c d e f g h i j k a\n+ b c d leaf\n.ENDS wide\n.SUBCKT leaf p\n.ENDS leaf\n";

fn same_names(names: &[Name], others: &[Name]) -> bool {
    let mut pairs = names.iter().zip(others.iter());
    names.len() == others.len() && pairs.all(|(name, other)| name.is(other.as_bytes()))
}

fn same_subckt(subckt: &Subckt, other: &Subckt) -> bool {
    let instances = subckt.instances.as_slice();
    let others = other.instances.as_slice();
    let mut pairs = instances.iter().zip(others.iter());
    subckt.name.is(other.name.as_bytes())
        && same_names(subckt.ports.as_slice(), other.ports.as_slice())
        && instances.len() == others.len()
        && pairs.all(|(a, b)| {
            a.name.is(b.name.as_bytes())
                && same_names(a.nodes.as_slice(), b.nodes.as_slice())
                && a.of.is(b.of.as_bytes())
        })
}

fn same_subckts(deck: &Deck, other: &Deck) -> bool {
    let subckts = deck.subckts.as_slice();
    let others = other.subckts.as_slice();
    let mut pairs = subckts.iter().zip(others.iter());
    subckts.len() == others.len() && pairs.all(|(a, b)| same_subckt(a, b))
}

/// A text's deck, as it is written.
fn written(alloc: Global, text: &[u8]) -> Result<Vec<u8>, Fail> {
    let deck = read_spice(alloc, text).ok().ok_or("refused")?;
    let subckts = deck.subckts.as_slice();
    if !are_writable(alloc, subckts)? {
        return Err(Fail::new("not writable"));
    }
    Ok(write_spice(alloc, subckts)?)
}

/// Whether two texts are read as the same subcircuits, and the second up to its end.
fn read_alike(alloc: Global, text: &[u8], other: &[u8]) -> Result<bool, Fail> {
    let deck = read_spice(alloc, text).ok().ok_or("refused")?;
    let back = read_spice(alloc, other).ok().ok_or("not read back")?;
    Ok(same_subckts(&deck, &back) && back.used == other.len() as u64)
}

#[test]
fn a_deck_that_is_written_and_read(rt: HostRuntime) -> Result<(), Fail> {
    let text = written(rt.alloc(), WIDE)?;
    assert!(rt; text.as_slice() == WRITTEN);
    assert!(rt; read_alike(rt.alloc(), WIDE, WRITTEN)?);
    Ok(())
}

/// Whether the deck of a text can be written.
fn is_writable(alloc: Global, text: &[u8]) -> Result<bool, Fail> {
    let deck = read_spice(alloc, text).ok().ok_or("refused")?;
    Ok(are_writable(alloc, deck.subckts.as_slice())?)
}

/// A line that is kept as it stands, and a CR in a name. Ports and instances may have one name.
#[test]
fn decks_that_are_read_and_not_written(rt: HostRuntime) -> Result<(), Fail> {
    let alloc = rt.alloc();
    assert!(rt; is_writable(alloc, b".SUBCKT a x1\nx1 x1 a\n.ENDS\n.SUBCKT x1\n.ENDS\n")?);
    assert!(rt; !is_writable(alloc, b".SUBCKT a p\nr1 p q\n.ENDS\n")?);
    assert!(rt; !is_writable(alloc, b".SUBCKT a p\nx1 p\rq b\n.ENDS\n")?);
    Ok(())
}

const TWO_LEVELS: &[u8] =
    b".SUBCKT inv a z\n.ENDS\n.SUBCKT pair i o\nxa i m inv\nxb m o inv\n.ENDS\n.SUBCKT top p q\nx1 p n pair\nx2 n q pair\n.ENDS\n";

/// The ports p and q, and then both pins of four inverters.
const ROWS: [(&[u8], u32); 10] = [
    (b"", 0),
    (b"", 1),
    (b"x1/xa", 0),
    (b"x1/xa", 2),
    (b"x1/xb", 2),
    (b"x1/xb", 3),
    (b"x2/xa", 3),
    (b"x2/xa", 4),
    (b"x2/xb", 4),
    (b"x2/xb", 1),
];

/// The flat rows of two levels.
fn two_levels(alloc: Global) -> Result<Rows, Fail> {
    let deck = read_spice(alloc, TWO_LEVELS).ok().ok_or("refused")?;
    let top = Name::from_bytes(alloc, b"TOP")?;
    Ok(flat_rows(alloc, &deck, &top, &[]).ok().ok_or("refused")?)
}

#[test]
fn rows_of_two_levels(rt: HostRuntime) -> Result<(), Fail> {
    let rows = two_levels(rt.alloc())?;
    assert_eq!(rt; rows.pins.as_slice().len(), 10);
    for (row, (path, net)) in rows.pins.as_slice().iter().zip(ROWS.iter()) {
        assert!(rt; row.path.is(path));
        assert_eq!(rt; row.net, *net);
    }
    Ok(())
}

/// The name, path or count of the fault of a deck's top `top`; a name where there is none.
fn rows_fault(alloc: Global, text: &[u8]) -> Result<(u64, Name), Fail> {
    let deck = read_spice(alloc, text).ok().ok_or("refused")?;
    let top = Name::from_bytes(alloc, b"top")?;
    let none = Name::from_bytes(alloc, b"")?;
    match flat_rows(alloc, &deck, &top, &[]) {
        Ok(_) => Ok((0, none)),
        Err(FlatFault::UnknownSubckt { name }) => Ok((16, name)),
        Err(FlatFault::Cycle { name }) => Ok((18, name)),
        Err(FlatFault::PortCount { path }) => Ok((17, path)),
        Err(FlatFault::TooMany { count }) => Ok((count, none)),
        Err(FlatFault::Memory) => Ok((94, none)),
    }
}

/// 40 subcircuits, each of two instances of the next, and a leaf.
fn doubling(alloc: Global) -> Result<Vec<u8>, Fail> {
    let mut text = Vec::new(alloc);
    text.extend_from_slice(b".SUBCKT top p\nxa p s0\n.ENDS\n.SUBCKT s40 p\n.ENDS\n")?;
    for level in 0_u32..40 {
        let next = level + 1;
        let part = format!(in alloc; ".SUBCKT s{level} p\nxa p s{next}\nxb p s{next}\n.ENDS\n")?;
        text.extend_from_slice(part.as_bytes())?;
    }
    Ok(text)
}

fn check_rows_fault(
    rt: &impl Abort,
    alloc: Global,
    text: &[u8],
    number: u64,
    name: &[u8],
) -> Result<(), Fail> {
    let (given, told) = rows_fault(alloc, text)?;
    assert_eq!(rt; given, number);
    assert!(rt; told.is(name));
    Ok(())
}

#[test]
fn rows_that_are_refused(rt: HostRuntime) -> Result<(), Fail> {
    let alloc = rt.alloc();
    let unknown = b".SUBCKT top p\nxa p b\nxb p A\n.ENDS\n";
    check_rows_fault(&rt, alloc, unknown, 16, b"a")?;
    let cycle = b".SUBCKT top p\nxa p b\n.ENDS\n.SUBCKT b p\nxt p top\n.ENDS\n";
    check_rows_fault(&rt, alloc, cycle, 18, b"b")?;
    let ports = b".SUBCKT top p\nxa p b\n.ENDS\n.SUBCKT b p\nxc p p c\n.ENDS\n.SUBCKT c p\n.ENDS\n";
    check_rows_fault(&rt, alloc, ports, 17, b"xa/xc")?;
    let many = doubling(alloc)?;
    check_rows_fault(&rt, alloc, &many, 1_048_577, b"")
}
