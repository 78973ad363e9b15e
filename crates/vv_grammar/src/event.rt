//! What happens while the grammar is gone through.

use crate::form::Form;

/// What happens to the next token, or what is made of what was read.
#[derive(Clone, Copy, Debug, PartialEq, Eq)]
pub enum Event {
    /// A token is passed over.
    Skip,
    /// A token is kept as a part.
    Keep,
    /// Parts that were read last become one.
    Make(Form),
}
