use or_geom::{Items, Name, Place, Point};

/// A library: structures whose names differ, in the order of the file. Lengths are in database units, which are
/// nanometres.
#[derive(Debug, Drop)]
pub struct Library {
    pub name: Name,
    pub structs: Items<Structure>,
}

/// A structure: a named cell, which others may refer to.
#[derive(Debug, Drop)]
pub struct Structure {
    pub name: Name,
    pub elements: Items<Element>,
}

/// A property of an element: a number and a text.
#[derive(Debug, Drop)]
pub struct Prop {
    pub attr: i16,
    pub value: Name,
}

/// What a structure is made of.
#[derive(Debug, Drop)]
pub enum Element {
    /// A polygon with sides parallel to the axes. `points` are its corners in order, from any of them and in either
    /// direction; the first isn't repeated at the end.
    Boundary {
        layer: i16,
        datatype: i16,
        points: Items<Point>,
        props: Items<Prop>,
    },
    /// A wire along the points. Its ends are flush (`kind` 0) or longer by half the width (`kind` 2).
    Path {
        layer: i16,
        datatype: i16,
        kind: i16,
        width: i32,
        points: Items<Point>,
        props: Items<Prop>,
    },
    /// A reference to a structure.
    Sref {
        name: Name,
        place: Place,
        props: Items<Prop>,
    },
    /// References to a structure in columns and rows: `across` leads from one column to the next, `down` from one row
    /// to the next.
    Aref {
        name: Name,
        place: Place,
        columns: i16,
        rows: i16,
        across: Point,
        down: Point,
        props: Items<Prop>,
    },
    /// A label.
    Text {
        layer: i16,
        texttype: i16,
        at: Point,
        string: Name,
        props: Items<Prop>,
    },
}
