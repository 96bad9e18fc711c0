//! Blocks of entries: an event, and the cancels that it forces.
ghost use Rattle.std.specs.Prelude.{◌≡◌, ℕ, IsTrue, if◌then◌else◌, ◌+◌, ◌<◌, ◌≤◌, List, [], ◌∷◌, ◌++◌, length, map, IsOk, OnOk};
ghost use Rattle.std.specs.Vec.{vec_capacity};
ghost use Rattle.ps_rules.specs.History.{any_of, cancels, is_fail};
ghost use Rattle.ps_ledger.specs.Kept.{Takes};
ghost use Rattle.ps_ledger.specs.Ledger.{HasRoom, HasSameMembers, KeepsSpare, Speaks, TakesOne, TellsAll};
ghost use Rattle.ps_monitor.specs.Watched.{marked};
ghost use Rattle.ps_board.specs.Blocks.{due_act, KeepsMembers, KeepsWatching, planned, TakesCancels};

use ps_ledger::Ledger;
use ps_machine::{CancelWhy, Entry, Event};
use ps_monitor::{Acts, Monitor};
use std::alloc::AllocError;

/// Puts an entry at the end, for which there is memory.
#[inline(always)]
pub fn push(entries: &mut Vec<Entry>, entry: Entry)
    requires { length entries.old.items < vec_capacity entries.old }
    ensures items { entries.new.items ≡ entries.old.items ++ entry ∷ [] }
    ensures len { length entries.new.items ≡ length entries.old.items + 1 }
    ensures capacity { vec_capacity entries.old ≤ vec_capacity entries.new }
{
    entries.push_reserved(entry);
}

/// Puts an entry at the end, for which there is memory, and takes what it tells.
#[inline(always)]
pub fn enter(entries: &mut Vec<Entry>, ledger: &mut Ledger, entry: Entry)
    requires place { length entries.old.items < vec_capacity entries.old }
    requires room { HasRoom entry.what ledger.old }
    requires speaks { Speaks entry.what ledger.old }
    ensures items { entries.new.items ≡ entries.old.items ++ entry ∷ [] }
    ensures len { length entries.new.items ≡ length entries.old.items + 1 }
    ensures capacity { vec_capacity entries.old ≤ vec_capacity entries.new }
    ensures told { Takes TellsAll entry.what ledger.old ledger.new }
    ensures members { HasSameMembers ledger.old ledger.new }
    ensures spare { TakesOne ledger.old ledger.new }
{
    let last = entries.len();
    push(entries, entry);
    ledger.take(&entries[last].what);
}

/// Makes room for so many entries more, at least one. The only error is that memory ran out, and then nothing changes.
pub fn reserve(entries: &mut Vec<Entry>, more: usize) -> Result<(), AllocError>
    requires { 1 ≤ more }
    ensures items { entries.new.items ≡ entries.old.items }
    ensures room { OnOk result (length entries.new.items + more ≤ vec_capacity entries.new) }
    ensures short { OnOk result (length entries.new.items < 18446744073709551615) }
    ensures capacity { vec_capacity entries.old ≤ vec_capacity entries.new }
    ensures reserved { length entries.old.items + more ≤ vec_capacity entries.old → IsOk result }
{
    entries.reserve(more)?;
    let _capacity = entries.capacity();
    Ok(())
}

/// Whether an event is a failure.
pub fn is_fail(event: &Event) -> bool
    ensures { result ≡ is_fail event.now }
{
    match event {
        Event::Fail { act: _, why: _ } => true,
        _ => false,
    }
}

/// These acts if they are to be, else none.
pub fn only_if(is_due: bool, acts: Acts) -> Acts
    ensures { (n : ℕ) → marked result n ≡ (if is_due then marked acts n else []) }
{
    if is_due { acts } else { Acts::none() }
}

/// Cancels an act, if it is to be.
fn cancel_if(
    entries: &mut Vec<Entry>,
    ledger: &mut Ledger,
    monitor: &mut Monitor,
    hand: u8,
    why: CancelWhy,
    act: u32,
    is_due: bool,
)
    requires there { act < length ledger.old.acts.states.items }
    requires room { IsTrue is_due → length entries.old.items < vec_capacity entries.old }
    ensures entries { entries.new.items
        ≡ entries.old.items ++ map (cancels hand why) (due_act act is_due) }
    ensures told { TakesCancels hand why (due_act act is_due) ledger.old ledger.new }
    ensures watching { KeepsWatching monitor.old ledger.old monitor.new ledger.new }
    ensures members { KeepsMembers ledger.old ledger.new }
    ensures spare { KeepsSpare ledger.old ledger.new }
    ensures acts { length ledger.new.acts.states.items ≡ length ledger.old.acts.states.items }
    ensures len { length entries.new.items
        ≡ length entries.old.items + length (due_act act is_due) }
    ensures capacity { vec_capacity entries.old ≤ vec_capacity entries.new }
{
    if is_due {
        push(
            entries,
            Entry {
                hand,
                what: Event::Cancel { act, why },
            },
        );
        ledger.cancel(act);
        monitor.unwatch(act);
    }
}

/// Cancels each of these acts. Answers whether there was one.
pub fn cancel_all(
    entries: &mut Vec<Entry>,
    ledger: &mut Ledger,
    monitor: &mut Monitor,
    hand: u8,
    why: CancelWhy,
    acts: &Acts,
) -> bool
    requires few { length ledger.old.acts.states.items ≤ 256 }
    requires room { length entries.old.items + length (planned acts.now ledger.old)
        ≤ vec_capacity entries.old }
    ensures entries { entries.new.items
        ≡ entries.old.items ++ map (cancels hand why) (planned acts.now ledger.old) }
    ensures told { TakesCancels hand why (planned acts.now ledger.old) ledger.old ledger.new }
    ensures watching { KeepsWatching monitor.old ledger.old monitor.new ledger.new }
    ensures members { KeepsMembers ledger.old ledger.new }
    ensures spare { KeepsSpare ledger.old ledger.new }
    ensures acts { length ledger.new.acts.states.items ≡ length ledger.old.acts.states.items }
    ensures len { length entries.new.items
        ≡ length entries.old.items + length (planned acts.now ledger.old) }
    ensures capacity { vec_capacity entries.old ≤ vec_capacity entries.new }
    ensures any { result ≡ any_of (planned acts.now ledger.old) }
{
    let mut any = false;
    let count = ledger.acts.states.len() as u32;
    for act in 0..count {
        let is_due = acts.has(act);
        cancel_if(entries, ledger, monitor, hand, why, act, is_due);
        any |= is_due;
    }
    any
}
