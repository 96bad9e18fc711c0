//! One value that several threads take in turns: one holder at a time, and what each seat saw of it.
//!
//! The value lies in the one slot of a table whose one word is the turn: 0 where the turn is free, and else the hand that has it.
//! Six kinds of step change the table, and no others: it is made with turn 1 and an empty slot at home; the turn is stored as 1 and
//! the slot taken; it is stored as 0 and the slot given back; a seat is dealt from another; the turn is exchanged from 0 for a hand
//! and the slot taken; a seat is joined to another. While the slot is out with a seat, only that seat reads or writes the value.
//! Nothing is promised of progress or of fairness, nor that a seat that sleeps is woken.
#![tactic(auto)]

mod book;
mod closing;
mod opening;
mod rule;
mod seat;
mod view;

pub use book::TurnBook;
pub use opening::NotOpened;
pub use seat::Seat;
