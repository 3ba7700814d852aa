ghost use Rattle.std.specs.Prelude.{◌≡◌, ◌↔◌, ◌<◌, Contains, IsTrue, Some, length, slice_get};

/// The number at an index.
pub fn number_at(numbers: &[u32], index: usize) -> u32
    requires { index < length numbers.now }
    ensures { slice_get numbers.now index ≡ Some result }
{
    numbers[index]
}

/// Whether the number is one of these.
pub fn is_listed(numbers: &[u32], number: u32) -> bool
    ensures { IsTrue result ↔ Contains numbers.now number }
{
    numbers.contains(&number)
}
