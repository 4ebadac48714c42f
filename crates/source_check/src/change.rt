//! What a directive changes of what follows it in the file.
use pl_model::grammar::Quotes;
use pl_model::operators::Kind;
use pl_term::Text;

/// What a directive changes.
#[derive(Debug, Drop)]
pub enum Change {
    /// Operators of these names are put into the table, unless one of them is refused.
    Operators {
        /// At most 1200.
        priority: u16,
        kind: Kind,
        names: Vec<Text>,
    },
    /// What a text in double quotes is read as.
    Quotes(Quotes),
    Nothing,
}
