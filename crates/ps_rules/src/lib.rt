//! The rules of the planning machine: what its journal says, and which entries may come one after another.
#![tactic(auto)]

mod laws;

pub use laws::{
    active_acts_may_go_on, acts_start_once, cart_is_right, entries_are_legal,
    entries_are_read_back, few_events_change, first_offer_wins, good_length_is_longest,
    histories_are_read_back, histories_lead, legal_events_speak, lines_force_nothing,
    none_is_active_between_runs, only_the_confirmed_work, prefixes_go_on, replanned_is_right,
    requests_count_up, sameness_decides, sample_is_right, sessions_are_orderly, shared_is_right,
    starts_are_sound, turns_are_legal,
};
