//! Clauses with the updates that made and erased them.
ghost use Rattle.std.specs.Prelude.{◌≡◌};
ghost use Rattle.gen_core.specs.Visible.{is_visible};

/// A clause with the places in the history of the update that added it and of the one that erased it, if one did. Fields
/// lie in memory as they stand here: the places stand in front, so that they and the head of the clause, which a call reads
/// together, lie side by side.
#[derive(Debug, Drop)]
pub struct DatedClause<C> {
    pub erased: Option<u64>,
    pub place: u64,
    pub clause: C,
}

impl<C> DatedClause<C> {
    /// Whether the generation `g` sees the clause: it was added by one of the first `g` updates and erased by none of
    /// them.
    pub fn is_visible(&self, g: u64) -> bool
        ensures { result ≡ is_visible g self.now }
    {
        match self.erased {
            None => self.place < g,
            Some(erased) => self.place < g && g <= erased,
        }
    }
}
