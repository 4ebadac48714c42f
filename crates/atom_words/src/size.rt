//! The sizes of a table.

/// How large a table is, which is fixed when it is made.
#[derive(Clone, Copy, Debug, Drop)]
pub struct Size {
    /// How many slots, and so atoms, it has room for.
    pub slots: u64,
    /// How many acknowledgement words it has, one for each engine.
    pub engines: u64,
    /// How many heads it has, those of all sizes of the bucket row together.
    pub heads: u64,
    /// The version that each head begins with.
    pub start: u64,
    /// The slots below this number are for the fixed atoms, and the rest of the first 256 stand reserved for ever.
    pub fixed: u64,
}
