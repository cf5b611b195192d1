/// How many places and windows came before a record in a series, at most 10^18 of each. Its own are counted on from there.
#[derive(Clone, Copy, Debug, PartialEq, Eq)]
pub struct Offsets {
    pub places: u64,
    pub windows: u64,
}

impl Offsets {
    /// Those of a record alone, or of the first of a series.
    pub const NONE: Offsets = Offsets {
        places: 0,
        windows: 0,
    };
}
