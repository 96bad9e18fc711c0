//! Why the ground actions aren't listed.

/// Why the ground actions aren't listed.
#[derive(Clone, Copy, PartialEq, Eq, Debug)]
pub enum GroundAllRefusal {
    /// There are more than 50,000.
    TooMany,
}
