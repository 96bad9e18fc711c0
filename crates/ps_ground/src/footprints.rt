//! What ground actions read and change, by which some needn't be tried in both orders.
ghost use Rattle.std.specs.Prelude.{◌≡◌, ◌++◌, ◌&&◌, fold};
ghost use Rattle.ps_ground.specs.Independence.{are_independent, bits_of, changed_by, is_plain_change, is_plain_test, with_bit};

use super::prepared::{Change, Test};

/// What a ground action reads and changes: the places of atoms as bits, each by its remainder when divided by 64, so that what has no
/// common bit has no common place.
#[derive(Clone, Copy)]
pub struct Footprint {
    /// Whether it reads and changes nothing but atoms.
    pub plain: bool,
    /// The atoms that it changes.
    pub changed: u64,
    /// The atoms that it reads or changes.
    pub touched: u64,
}

impl Footprint {
    /// The footprint of a ground action with these tests and changes.
    pub fn of(
        start: &Test,
        over: &Test,
        end: &Test,
        at_start: &Change,
        at_end: &Change,
    ) -> Footprint
        ensures plain { result.plain ≡ (is_plain_test start.now
            && (is_plain_test over.now
            && (is_plain_test end.now && (is_plain_change at_start.now
            && is_plain_change at_end.now)))) }
        ensures changed { result.changed
            ≡ bits_of (changed_by at_start.now ++ changed_by at_end.now) }
        ensures touched { result.touched
            ≡ bits_of ((start.now.wanted.items ++ (over.now.wanted.items ++ end.now.wanted.items))
            ++ (changed_by at_start.now ++ changed_by at_end.now)) }
    {
        let plain = is_plain_test(start)
            && is_plain_test(over)
            && is_plain_test(end)
            && is_plain_change(at_start)
            && is_plain_change(at_end);
        let read = with_places(
            with_places(with_places(0, &start.wanted), &over.wanted),
            &end.wanted,
        );
        Footprint {
            plain,
            changed: with_changed(with_changed(0, at_start), at_end),
            touched: with_changed(with_changed(read, at_start), at_end),
        }
    }

    /// Whether this ground action and another one are of atoms alone, and neither changes one that the other reads or changes. It may
    /// be false where they are, since atoms may share a bit.
    pub fn is_independent(&self, other: &Footprint) -> bool
        ensures { result ≡ are_independent self.now other.now }
    {
        self.plain
            && other.plain
            && self.changed & other.touched == 0
            && other.changed & self.touched == 0
    }
}

/// Whether prepared conditions say nothing but that atoms are known.
fn is_plain_test(test: &Test) -> bool
    ensures { result ≡ is_plain_test test.now }
{
    test.others.as_slice().is_empty()
}

/// Whether a change is of flags alone.
fn is_plain_change(change: &Change) -> bool
    ensures { result ≡ is_plain_change change.now }
{
    match change {
        Change::Flags { .. } => true,
        Change::Effects { .. } => false,
        Change::Spreads { .. } => false,
    }
}

/// These bits and those of the places that a change clears or sets.
fn with_changed(bits: u64, change: &Change) -> u64
    ensures { result ≡ fold with_bit bits (changed_by change.now) }
{
    match change {
        Change::Flags { cleared, set } => with_places(with_places(bits, cleared), set),
        Change::Effects { .. } => bits,
        Change::Spreads { .. } => bits,
    }
}

/// These bits and those of places.
fn with_places(mut bits: u64, places: &[usize]) -> u64
    ensures { result ≡ fold with_bit bits places.now }
{
    for place in places {
        bits |= 1 << (*place % 64);
    }
    bits
}
