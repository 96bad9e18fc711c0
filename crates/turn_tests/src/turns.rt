//! Threads take turns at a list of entries.
ghost use Rattle.std.specs.Prelude.{◌≡◌, ℕ, ◌<◌, ◌≤◌, false, length, slice_index_or};
ghost use Rattle.std.specs.List.{All};
ghost use Rattle.ps_turn.specs.Books.{IsFree};
ghost use Rattle.ps_turn.specs.Hands.{GoesOnBy};

use ps_domain::Expert;
use ps_machine::{Entry, Event, Grows, Input};
use ps_turn::{Seat, TurnBook};
use ps_world::{Domain, Name, Seq};
use std::alloc::{AllocError, Global};
use std::process::Abort;
use std::sync::Wait;
use std::test::Fail;
use std::thread;
use std::thread::Threads;

/// Entries, and the input that they are of.
#[derive(Drop)]
struct Log {
    entries: Vec<Entry>,
    input: Input,
}

impl Grows for Log {
    ghost history = { λ log. log.entries.items };

    ghost input = { λ log. log.input };
}

impl Log {
    /// No entries, of a domain that declares nothing.
    fn new(alloc: Global) -> Result<Log, AllocError> {
        let domain = Domain {
            name: Name(1),
            types: Seq::new(alloc),
            constants: Seq::new(alloc),
            predicates: Seq::new(alloc),
            functions: Seq::new(alloc),
            actions: Seq::new(alloc),
        };
        Ok(Log {
            entries: Vec::new(alloc),
            input: Input {
                domain: Expert::new(alloc, domain)?,
                members: Seq::new(alloc),
                lines: Seq::new(alloc),
                budget: 0,
                replans: 0,
            },
        })
    }

    /// Adds a `quit` entry of this hand, if there is memory.
    fn add_quit(&mut self, hand: u8)
        ensures of_input { self.new.input ≡ self.old.input }
        ensures grows { GoesOnBy hand self.old.entries.items self.new.entries.items }
    {
        let _ = self.entries.push(Entry {
            hand,
            what: Event::Quit,
        });
    }

    fn count_of(&self, hand: u8) -> usize {
        self.entries.iter().filter(|e| e.hand == hand).count()
    }
}

/// Adds an entry of the seat's hand.
fn take_turn<R: Wait>(rt: &R, book: &TurnBook<Log>, seat: &mut Seat<Log>)
    requires { IsFree book.now seat.old }
    ensures { IsFree book.now seat.new × (seat.new.hand ≡ seat.old.hand) }
{
    let mut log = book.take(rt, seat);
    log.add_quit(seat.hand());
    book.give(seat, log);
}

fn take_turns<R: Wait>(rt: &R, book: &TurnBook<Log>, seat: &mut Seat<Log>, times: u32)
    requires { IsFree book.now seat.old }
    ensures { (seat.new.book ≡ seat.old.book) × (seat.new.hand ≡ seat.old.hand)
        × (seat.new.holds ≡ false) }
{
    for _ in 0..times {
        take_turn(rt, book, seat);
    }
}

/// Each seat takes its turns in a thread of its own.
fn run<R: Threads + Wait + Sync>(rt: &R, book: &TurnBook<Log>, seats: &mut [Seat<Log>], times: u32)
    requires { All (IsFree book.now) seats.old }
    ensures { (i : ℕ) (d : _) → i < length seats.old
        → IsFree book.now (slice_index_or seats.new i d)
        × ((slice_index_or seats.new i d).hand ≡ (slice_index_or seats.old i d).hand) }
{
    thread::for_each_mut(
        rt,
        seats,
        16,
        &|_, seat: &mut Seat<Log>|
            requires { IsFree book.now seat.now }
            ensures { (seat.exit.now.book ≡ seat.entry.now.book)
                × (seat.exit.now.hand ≡ seat.entry.now.hand) × (seat.exit.now.holds ≡ false) }
        { take_turns(rt, book, seat, times) },
    );
}

/// The value of a book of this log once each of its seats has taken so many turns.
fn closed_after<R: Threads + Wait + Sync>(
    rt: &R,
    alloc: Global,
    log: Log,
    count: u8,
    times: u32,
) -> Result<Log, &'static str>
    requires { (1 ≤ count) × (count ≤ 16) }
{
    let opened = TurnBook::open(alloc, log, count);
    let Ok((book, mut seats)) = opened else {
        return Err("no memory");
    };
    run(rt, &book, seats.as_mut_slice(), times);
    Ok(book.close(seats))
}

/// Asserts that each of so many hands has so many entries, and that there are no others.
fn assert_shared(rt: &impl Abort, log: &Log, hands: u8, times: usize) {
    assert_eq!(rt; log.entries.len(), times.saturating_mul(usize::from(hands)));
    for hand in 1..=hands {
        assert_eq!(rt; log.count_of(hand), times);
    }
}

#[test]
fn two_seats_take_turns(rt: HostRuntime) -> Result<(), Fail> {
    let log = closed_after(&rt, rt.alloc(), Log::new(rt.alloc())?, 2, 100)?;
    assert_shared(&rt, &log, 2, 100);
    Ok(())
}

#[test]
fn sixteen_seats_take_turns(rt: HostRuntime) -> Result<(), Fail> {
    let log = closed_after(&rt, rt.alloc(), Log::new(rt.alloc())?, 16, 20)?;
    assert_shared(&rt, &log, 16, 20);
    Ok(())
}
