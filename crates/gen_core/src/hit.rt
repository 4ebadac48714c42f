//! What a call finds.

/// A clause of a call, with the place of the update that added it and whether more follow.
#[derive(Debug, Clone, Copy)]
pub struct Hit<'a, C> {
    pub place: u64,
    pub clause: &'a C,
    pub more: bool,
}
