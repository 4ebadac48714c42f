//! How procedures may be used.
ghost use Rattle.std.specs.Prelude.{◌≡◌, None};
ghost use Rattle.clause_db.specs.Access.{access_by, is_alive, life_at};

use pl_model::shows::Origin;

/// A procedure is static or dynamic (ISO 7.5.2). A goal can neither change a static one nor look into it.
#[derive(Debug, Clone, Copy, Drop)]
pub enum Access {
    Static,
    Dynamic,
}

/// What asks for clauses: a goal that is called (ISO 7.7.10), or clause/2 (ISO 8.8.1).
#[derive(Debug, Clone, Copy, Drop)]
pub enum By {
    Goal,
    Clause,
}

/// A procedure is static where its first clause comes from a text that is consulted, and dynamic where a goal adds it
/// (ISO 7.5.2, 8.9.1).
pub fn access_by(origin: Origin) -> Access
    ensures { result ≡ access_by origin }
{
    match origin {
        Origin::Consult => Access::Static,
        Origin::Assert => Access::Dynamic,
    }
}

/// A procedure that was abolished: how it could be used, and the places of the updates that made it and that abolished it.
#[derive(Debug, Clone, Copy, Drop)]
pub struct Life {
    pub access: Access,
    pub from: u64,
    pub until: u64,
}

impl Life {
    /// Whether the procedure was there at the generation `g`.
    fn is_alive(&self, g: u64) -> bool
        ensures { result ≡ is_alive g self.now }
    {
        self.from < g && g <= self.until
    }
}

/// How a procedure could be used at the generation `g`, by its earlier lives.
pub fn life_at(lives: &[Life], g: u64) -> Option<Access>
    ensures { result ≡ life_at None g lives.now }
{
    let mut access = None;
    for i in 0..lives.len() {
        if lives[i].is_alive(g) {
            access = Some(lives[i].access);
        }
    }
    access
}
