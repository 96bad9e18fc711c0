//! Which offer the ticker rejects.
ghost use Rattle.std.specs.Prelude.{◌≡◌, IfSome, List};
ghost use Rattle.ps_machine.specs.declared.inputs.Input.{Input};
ghost use Rattle.ps_machine.specs.declared.journal.Entry.{Entry};
ghost use Rattle.ps_rules.specs.Choices.{rejects};
ghost use Rattle.ps_actors.specs.Ticks.{better, first_of, IsEarliest, IsTickers};
ghost use Rattle.ps_actors.specs.Turns.{Chooses, first_legal, IsOpen};

use super::choice::{Choice, Chosen};
use ps_ledger::Offer;
use ps_state::State;

/// Of an offer that may be rejected or not, and the best one before it, the one on the earlier request.
fn better(may: bool, best: Option<Offer>, offer: Offer) -> Option<Offer>
    ensures { result ≡ better may best offer }
{
    if !may {
        return best;
    }
    match best {
        Some(known) => {
            if offer.r < known.r {
                Some(offer)
            } else {
                Some(known)
            }
        }
        None => Some(offer),
    }
}

/// Of the offers that may be rejected the first on the earliest request.
fn first_rejected(state: &State) -> Option<Offer>
    ensures { (i : Input) (es : List Entry) → IsOpen i es state.now
        → IsEarliest (first_of i es state.now.ledger.offers.all.items) result }
{
    let mut best = None;
    for at in 0..state.ledger.offers.all.len() {
        let offer = &state.ledger.offers.all[at];
        let may = state.may_reject(offer.r, offer.by);
        best = better(may, best, *offer);
    }
    best
}

/// The first rejection, if one may come.
pub fn first_reject(state: &State) -> Option<Choice>
    ensures first { Chooses state.now result (λ i es. first_legal i es (rejects es)) }
    ensures its { IfSome result IsTickers }
{
    match first_rejected(state) {
        Some(offer) => {
            let r = offer.r;
            let by = offer.by;
            Some(Choice::of(Chosen::Reject { r, by }))
        }
        None => None,
    }
}
