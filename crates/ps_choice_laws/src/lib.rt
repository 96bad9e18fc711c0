//! That the lists from which the ticker and the members choose leave out nothing that is legal: laws above the definitions of whose turn
//! does what.
#![tactic(auto)]

mod laws;

pub use laws::{
    each_event_is_somebodys, members_alone_act, observers_leave_nothing, performers_leave_nothing,
    performers_list_all, ticker_leaves_nothing, ticker_lists_all,
};
