ghost use Rattle.or_geom.specs.OneList.{AreOneList};

/// Two lists in strict order that hold the same things are one list, whatever the order is.
pub fn sets_are_one_list()
    ensures { AreOneList }
{}
