//! How the members of a run take turns.

/// How the members of a run take turns.
#[derive(Clone, Copy)]
pub enum Turns {
    /// In the order of the members, and then the ticker, again and again, all with hand 1.
    InOrder,
    /// As so many workers take them, from 1 to 16, each with a hand of its own, counted from 1.
    Workers(u8),
}
