use or_geom::Name;

/// The name of a pin: the path of its instance, which is empty for a port of the top, and the pin's name there.
#[derive(Debug, Drop)]
pub struct PinName {
    pub path: Name,
    pub pin: Name,
}

/// What the labels of a layout and the rows of a netlist differ in.
#[derive(Debug, Drop)]
pub enum NetDiff {
    /// The pin of the rows has no bound label.
    Unlabelled { pin: PinName },
    /// The label's path stands at no leaf instance that has a pin.
    Stranger { pin: PinName },
    /// The rows have the two pins on one net, and the layout has not; or one pin, twice, has labels on two nets.
    Open { first: PinName, second: PinName },
    /// The layout has the two pins on one net, and the rows have not.
    Short { first: PinName, second: PinName },
}
