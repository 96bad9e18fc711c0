//! Telling a text, or why there is none.
ghost use Rattle.ps_shows.specs.Telling.{GivesUp, InformsOf, Says, Tells};

use ps_text::{Sink, SinkRefusal, put};
use std::alloc::AllocError;

/// Writes a text to `out`, and gives the status: 0, or, where a write is refused, that of what `err` hears of it.
pub fn tell<O: Sink, E: Sink>(text: &[u8], out: &mut O, err: &mut E) -> u8
    ensures { Tells text.now (O.shown out.old) (O.shown out.new) (E.shown err.old) (E.shown err.new)
        result }
{
    match put(out, text) {
        Ok(()) => 0,
        Err(why) => give_up(err, why),
    }
}

/// Says a text to `err`, and gives this status; or, where there was no memory for the text or a write is refused, that
/// of this.
pub fn inform<E: Sink>(text: Result<Vec<u8>, AllocError>, status: u8, err: &mut E) -> u8
    ensures { InformsOf text status (E.shown err.old) (E.shown err.new) result }
{
    let Ok(text) = text else {
        return give_up(err, SinkRefusal::OutOfMemory);
    };
    match put(err, text.as_slice()) {
        Ok(()) => status,
        Err(SinkRefusal::Failed) => 5,
        Err(SinkRefusal::OutOfMemory) => 6,
    }
}

/// Says to `err` why the call is broken off, and gives the status.
pub fn give_up<E: Sink>(err: &mut E, why: SinkRefusal) -> u8
    ensures { GivesUp why (E.shown err.old) (E.shown err.new) result }
{
    match why {
        SinkRefusal::Failed => {
            say(err, b"plansys: cannot write\n");
            5
        }
        SinkRefusal::OutOfMemory => {
            say(err, b"plansys: out of memory\n");
            6
        }
    }
}

/// Says a line to `err`, as far as it takes it.
fn say<E: Sink>(err: &mut E, line: &[u8])
    ensures { Says line.now (E.shown err.old) (E.shown err.new) }
{
    let _ = put(err, line);
}
