//! How terms are written.

/// How a term is written under operators (ISO/IEC 13211-1:1995, 8.14.2).
#[derive(Clone, Copy, Debug, Drop)]
pub enum Style {
    /// write/1: names as they are.
    Bare,
    /// writeq/1 and print/1: names in quotes where they would not read back without them.
    Quoted,
}
