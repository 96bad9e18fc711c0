//! The text of a tree.
ghost use Rattle.std.specs.Prelude.{◌≡◌, ◌++◌, OnOk};
ghost use Rattle.ps_action.specs.Trees.{act_node, line, status_word, wait_node};
ghost use Rattle.ps_tree.specs.Parts.{act_lines, first_lines, line_end, numbered, wait_lines, worded};

use super::status::{act_status, sequence_status, state_at, wait_status};
use super::waits::{Waits, waits_at};
use itoa::Buffer;
use ps_action::{ActState, Status};
use std::alloc::AllocError;

/// A status, as a line says it.
fn status_word(status: Status) -> &'static [u8]
    ensures { result.now ≡ status_word status }
{
    match status {
        Status::Idle => b"idle",
        Status::Running => b"running",
        Status::Success => b"success",
        Status::Failure => b"failure",
    }
}

/// Adds a space, a status, and what ends the line.
fn push_status(status: Status, text: &mut Vec<u8>) -> Result<(), AllocError>
    ensures { OnOk result (text.new.items ≡ text.old.items ++ line_end status) }
{
    text.push(b' ')?;
    text.extend_from_slice(status_word(status))?;
    text.push(b'\n')?;
    Ok(())
}

/// Adds a line of words and a status.
pub fn push_line(words: &[u8], status: Status, text: &mut Vec<u8>) -> Result<(), AllocError>
    ensures { OnOk result (text.new.items ≡ text.old.items ++ worded words.now status) }
{
    text.extend_from_slice(words)?;
    push_status(status, text)?;
    Ok(())
}

/// Adds a line of words, a number and a status.
fn push_numbered(
    words: &[u8],
    number: u32,
    status: Status,
    text: &mut Vec<u8>,
) -> Result<(), AllocError>
    ensures { OnOk result (text.new.items ≡ text.old.items ++ numbered words.now number status) }
{
    text.extend_from_slice(words)?;
    let mut digits = Buffer::new();
    text.extend_from_slice(digits.format(number).as_bytes())?;
    push_status(status, text)?;
    Ok(())
}

/// Adds the line of a wait.
fn push_wait(states: &[ActState], wait: u32, text: &mut Vec<u8>) -> Result<(), AllocError>
    ensures { OnOk result (text.new.items ≡ text.old.items ++ line (wait_node states.now wait)) }
{
    let status = wait_status(state_at(states, wait));
    push_numbered(b"    wait ", wait, status, text)
}

/// Adds the line of an act's leaf.
fn push_act(states: &[ActState], act: u32, text: &mut Vec<u8>) -> Result<(), AllocError>
    ensures { OnOk result (text.new.items ≡ text.old.items ++ line (act_node states.now act)) }
{
    let status = act_status(state_at(states, act));
    push_numbered(b"    act ", act, status, text)
}

/// Adds the lines of waits. Where memory runs out some of the first may be added.
fn push_waits(states: &[ActState], waits: &[u32], text: &mut Vec<u8>) -> Result<(), AllocError>
    ensures { OnOk result (text.new.items ≡ text.old.items ++ wait_lines states.now waits.now) }
{
    for wait in waits {
        push_wait(states, *wait, text)?;
    }
    Ok(())
}

/// Adds the lines of an act's sequence and of its leaves. Where memory runs out some of the first may be
/// added.
fn push_sequence(
    states: &[ActState],
    waits: &[u32],
    act: u32,
    text: &mut Vec<u8>,
) -> Result<(), AllocError>
    ensures { OnOk result (text.new.items ≡ text.old.items ++ act_lines states.now waits.now act) }
{
    push_line(b"  sequence", sequence_status(states, waits, act), text)?;
    push_waits(states, waits, text)?;
    push_act(states, act, text)?;
    Ok(())
}

/// Adds the lines of the sequences of so many acts. Where memory runs out some of the first may be added.
pub fn push_sequences(
    states: &[ActState],
    all: &[Waits],
    acts: u32,
    text: &mut Vec<u8>,
) -> Result<(), AllocError>
    ensures { OnOk result (text.new.items ≡ text.old.items ++ first_lines states.now all.now acts) }
{
    for act in 0..acts {
        push_sequence(states, waits_at(all, act), act, text)?;
    }
    Ok(())
}
