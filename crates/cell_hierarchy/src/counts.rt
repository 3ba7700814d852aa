/// Numbers of shapes and labels, each saturated at 2^32.
#[derive(Clone, Copy, Debug, PartialEq, Eq)]
pub struct SaturatedCounts {
    pub shapes: u64,
    pub labels: u64,
}
