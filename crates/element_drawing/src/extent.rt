ghost use Rattle.std.specs.Prelude.{◌<ℤ◌};

/// The numbers from one to another.
#[derive(Clone, Copy)]
pub struct AxisExtent {
    pub low: i64,
    pub high: i64,
    pub ghost ordered: { low <ℤ high },
}
