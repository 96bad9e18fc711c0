//! How far a performer has answered the requests of a run.
ghost use Rattle.std.specs.Prelude.{◌≡◌, ◌<◌, false, List};
ghost use Rattle.ps_machine.specs.declared.inputs.Input.{Input};
ghost use Rattle.ps_machine.specs.declared.journal.Entry.{Entry};
ghost use Rattle.ps_rules.specs.Auctions.{has_answered, requests};
ghost use Rattle.ps_state.specs.State.{Stands};
ghost use Rattle.ps_actors.specs.Heard.{HasHeard};

use ps_state::State;
use ps_world::Name;

/// How far a performer has answered the requests of the last run, seen from where it is known to have: up to the first that it has not.
pub fn heard_upto(state: &State, name: Name, from: u64) -> u64
    ensures heard { (i : Input) (es : List Entry) → Stands i es state.now
        → HasHeard name from es → HasHeard name result es }
    ensures last { (i : Input) (es : List Entry) → Stands i es state.now
        → result < requests es → has_answered result name es ≡ false }
{
    let start = from.max(state.ledger.requests.of_run as u64);
    let count = state.ledger.requests.count();
    for r in start..count {
        if !state.ledger.has_answered(r, name) {
            return r;
        }
    }
    count
}
