ghost use Rattle.std.specs.Prelude.{◌≡◌, ◌<ℤ◌, ◌<◌, length, IfOk};

use cell_builder::Cells;
use gds_library::{Element, Library, Structure};
use or_geom::{Items, Name, Orient, Place, Point, Rect, Shape};
use std::alloc::Global;
use std::process::Abort;
use std::test::Fail;
use tech_rules::{Layer, Tech};

/// A technology of one layer, whose shapes have the numbers 7 and 1 and whose labels 8 and 2.
fn one_layer(alloc: Global) -> Result<Tech, Fail>
    ensures { IfOk result (λ tech. length tech.layers ≡ 1) }
{
    let layers = vec![in alloc;
        Layer {
            name: Name::from_bytes(alloc, b"m1")?,
            number: 7,
            datatype: 1,
            text_number: 8,
            texttype: 2,
        },
    ]?;
    Ok(Tech {
        layers: Items::from_vec(layers),
        outline: 0,
        rules: Items::new(alloc),
        connects: Items::new(alloc),
        wire: None,
        roles: Items::new(alloc),
        tables: Items::new(alloc),
        devices: Items::new(alloc),
    })
}

/// A library with one structure, which is empty.
fn leaves(alloc: Global) -> Result<Library, Fail> {
    let leaf = Structure {
        name: Name::from_bytes(alloc, b"leaf")?,
        elements: Items::new(alloc),
    };
    Ok(Library {
        name: Name::from_bytes(alloc, b"leaves")?,
        structs: Items::from_vec(vec![in alloc; leaf]?),
    })
}

/// A wire from its lower left to its upper right corner.
fn wire(x1: i64, y1: i64, x2: i64, y2: i64) -> Shape
    requires wide { x1 <ℤ x2 }
    requires tall { y1 <ℤ y2 }
    ensures { result.layer ≡ 0 }
{
    Shape {
        layer: 0,
        rect: Rect { x1, y1, x2, y2 },
    }
}

/// A cell with an instance, two wires and two labels, of which the later come first.
fn built(alloc: Global, tech: &Tech) -> Result<Library, Fail>
    requires { length tech.now.layers ≡ 1 }
{
    let leaf = Name::from_bytes(alloc, b"leaf")?;
    let mut cells = Cells::new(alloc)?;
    cells.adopt(&leaves(alloc)?)?;
    let row = cells.cell(&Name::from_bytes(alloc, b"row")?)?;
    let mirrored = Place {
        orient: Orient::MX,
        at: Point { x: 3, y: 4 },
    };
    cells.place(row, &Name::from_bytes(alloc, b"xb0")?, &leaf, mirrored)?;
    cells.wire(row, wire(10, 0, 14, 2))?;
    cells.wire(row, wire(0, 5, 4, 7))?;
    cells.text(
        row,
        0,
        Point { x: 1, y: 6 },
        &Name::from_bytes(alloc, b"wl")?,
    )?;
    cells.text(
        row,
        0,
        Point { x: 11, y: 1 },
        &Name::from_bytes(alloc, b"bl")?,
    )?;
    Ok(cells.finish(&Name::from_bytes(alloc, b"macro")?, tech)?)
}

fn library_of_a_row(alloc: Global) -> Result<Library, Fail> {
    let tech = one_layer(alloc)?;
    built(alloc, &tech)
}

/// An element in words, its coordinates from its first point or its place.
fn words(alloc: Global, element: &Element) -> Result<String, Fail> {
    let text = match element {
        Element::Sref { name, place, props } if props.as_slice().len() == 1 => {
            let at = place.at;
            let prop = &props.as_slice()[0];
            format!(in alloc;
                "{name} {:?} {} {} {} {}",
                place.orient, at.x, at.y, prop.attr, prop.value
            )?
        }
        Element::Boundary {
            layer,
            datatype,
            points,
            ..
        } if points.as_slice().len() == 4 => {
            let (a, c) = (points.as_slice()[0], points.as_slice()[2]);
            format!(in alloc; "{layer} {datatype} {} {} {} {}", a.x, a.y, c.x, c.y)?
        }
        Element::Text {
            layer,
            texttype,
            at,
            string,
            ..
        } => format!(in alloc; "{layer} {texttype} {} {} {string}", at.x, at.y)?,
        _ => String::new(alloc),
    };
    Ok(text)
}

fn check_words(
    rt: &impl Abort,
    alloc: Global,
    elements: &[Element],
    wanted: &[&str],
) -> Result<(), Fail> {
    assert_eq!(rt; elements.len(), wanted.len());
    for (element, line) in elements.iter().zip(wanted.iter()) {
        let given = words(alloc, element)?;
        assert_eq!(rt; given.as_str(), *line);
    }
    Ok(())
}

/// References first, then wires in the order of shapes, then labels in the order of their texts.
#[test]
fn a_cell_of_a_finished_library(rt: HostRuntime) -> Result<(), Fail> {
    let library = library_of_a_row(rt.alloc())?;
    assert!(rt; library.name.is(b"macro"));
    let [leaf, row] = library.structs.as_slice() else {
        return Err("not two structures".into());
    };
    assert!(rt; leaf.name.is(b"leaf"));
    assert!(rt; row.name.is(b"row"));
    let wanted = [
        "leaf MX 3 4 1 xb0",
        "7 1 0 5 4 7",
        "7 1 10 0 14 2",
        "8 2 11 1 bl",
        "8 2 1 6 wl",
    ];
    check_words(&rt, rt.alloc(), row.elements.as_slice(), &wanted)
}
