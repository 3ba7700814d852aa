ghost use Rattle.rectilinear.specs.Laws.{RingIsClosed, SlabsFill, SlabsStayNear};

/// Each row of cells is passed by an even number of a ring's sides.
pub fn ring_is_closed()
    ensures { RingIsClosed }
{}

/// The slabs of a ring have exactly the cells inside it.
pub fn slabs_fill()
    ensures { SlabsFill }
{}

/// Slabs lie no further out than the corners of their ring.
pub fn slabs_stay_near()
    ensures { SlabsStayNear }
{}
