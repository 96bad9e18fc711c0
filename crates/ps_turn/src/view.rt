//! What a seat knows of its book, for the proofs alone. No value of these types is made.
use ps_machine::{Entry, Input};
use std::collections::LinkedList;

// What a seat that was joined to another knew.
pub struct Note {
    pub hand: u8,
    pub seen: LinkedList<Entry>,
    pub mine: LinkedList<Entry>,
}

// What a seat knows. A spent one has hand 0.
pub struct View {
    pub hand: u8,
    // The history that the seat last saw, and the entries of its hand there.
    pub seen: LinkedList<Entry>,
    pub mine: LinkedList<Entry>,
    pub input: Option<Input>,
    pub holds: bool,
    // It has the turn, and the slot was never filled.
    pub opening: bool,
    // How many hands were dealt, where it deals them.
    pub made: u8,
    pub notes: LinkedList<Note>,
}
