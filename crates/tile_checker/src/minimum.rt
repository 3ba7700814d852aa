ghost use Rattle.std.specs.Prelude.{◌≡◌, ◌*ℤ◌};
ghost use Rattle.tile_checker.specs.Minimum.{IsMinimum};

/// The minimum of a rule, 1 to 1,048,576 nanometres.
#[derive(Clone, Copy)]
pub struct Minimum {
    pub value: i64,
    pub ghost within: { IsMinimum value },
}

impl Minimum {
    /// The minimum's square, in square nanometres.
    pub fn square(self) -> i128
        ensures { result ≡ self.value *ℤ self.value }
    {
        let value = i128::from(self.value);
        value * value
    }
}
