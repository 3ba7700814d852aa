ghost use Rattle.std.specs.Prelude.{◌≡◌};
ghost use Rattle.demo_kit.specs.Layers as spec;

/// A layer of the demonstration technology.
#[derive(Clone, Copy)]
pub enum DemoLayer {
    Outline,
    M1,
    Via1,
    M2,
    Via2,
    M3,
    Via3,
    M4,
}

/// A cut with the metals that it joins.
#[derive(Clone, Copy)]
pub struct ViaLevel {
    pub cut: DemoLayer,
    pub below: DemoLayer,
    pub above: DemoLayer,
}

impl ViaLevel {
    /// From the lowest up.
    pub fn all() -> [ViaLevel; 3]
        ensures { result ≡ spec.via_levels }
    {
        [
            ViaLevel {
                cut: DemoLayer::Via1,
                below: DemoLayer::M1,
                above: DemoLayer::M2,
            },
            ViaLevel {
                cut: DemoLayer::Via2,
                below: DemoLayer::M2,
                above: DemoLayer::M3,
            },
            ViaLevel {
                cut: DemoLayer::Via3,
                below: DemoLayer::M3,
                above: DemoLayer::M4,
            },
        ]
    }
}

impl DemoLayer {
    /// All layers, in the order of the technology file.
    pub fn all() -> [DemoLayer; 8]
        ensures { result ≡ spec.demo_layers }
    {
        [
            DemoLayer::Outline,
            DemoLayer::M1,
            DemoLayer::Via1,
            DemoLayer::M2,
            DemoLayer::Via2,
            DemoLayer::M3,
            DemoLayer::Via3,
            DemoLayer::M4,
        ]
    }

    /// The layers of wires, from the lowest up.
    pub fn metals() -> [DemoLayer; 4]
        ensures { result ≡ spec.demo_metals }
    {
        [DemoLayer::M1, DemoLayer::M2, DemoLayer::M3, DemoLayer::M4]
    }

    /// The layers of cuts, from the lowest up.
    pub fn cuts() -> [DemoLayer; 3]
        ensures { result ≡ spec.demo_cuts }
    {
        [DemoLayer::Via1, DemoLayer::Via2, DemoLayer::Via3]
    }

    pub fn name(self) -> &'static str
        ensures { result.now ≡ spec.demo_layer_name self }
    {
        match self {
            DemoLayer::Outline => "outline",
            DemoLayer::M1 => "m1",
            DemoLayer::Via1 => "via1",
            DemoLayer::M2 => "m2",
            DemoLayer::Via2 => "via2",
            DemoLayer::M3 => "m3",
            DemoLayer::Via3 => "via3",
            DemoLayer::M4 => "m4",
        }
    }

    /// The layer's number in the GDSII file, where its datatype and its texttype are 0.
    pub fn number(self) -> u8
        ensures { result ≡ spec.demo_layer_number self }
    {
        match self {
            DemoLayer::Outline => 1,
            DemoLayer::M1 => 10,
            DemoLayer::Via1 => 11,
            DemoLayer::M2 => 12,
            DemoLayer::Via2 => 13,
            DemoLayer::M3 => 14,
            DemoLayer::Via3 => 15,
            DemoLayer::M4 => 16,
        }
    }
}
