//! What a replay window answers.

/// The answer to an offer.
#[derive(Clone, Copy, Debug, PartialEq, Eq)]
pub enum Offer {
    /// The key is new, and stands in the window from now on.
    Fresh,
    /// A live entry has this key.
    Seen {
        /// The turn that the entry came in.
        first: u32,
    },
    /// The key is new, and the source's AS has as many live entries as the window allows.
    Full {
        /// How many live entries the AS has.
        live: u32,
    },
}
