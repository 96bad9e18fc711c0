//! The statuses of nodes.
ghost use Rattle.std.specs.Prelude.{◌≡◌, map};
ghost use Rattle.ps_action.specs.Trees.{act_status, is_success, is_waiting, sequence_status, state_at, wait_status};

use ps_action::{ActState, Status};

/// The state of an act; one that isn't there waits.
pub fn state_at(states: &[ActState], act: u32) -> ActState
    ensures { result ≡ state_at states.now act }
{
    match states.get(act as usize) {
        Some(state) => *state,
        None => ActState::Waiting,
    }
}

/// The status of a wait, by the state of the act that is waited for.
pub fn wait_status(state: ActState) -> Status
    ensures { result ≡ wait_status state }
{
    match state {
        ActState::Waiting | ActState::Active => Status::Running,
        ActState::Done => Status::Success,
        ActState::Failed | ActState::Cancelled => Status::Failure,
    }
}

/// The status of an act's leaf, by its state.
pub fn act_status(state: ActState) -> Status
    ensures { result ≡ act_status state }
{
    match state {
        ActState::Waiting => Status::Idle,
        ActState::Active => Status::Running,
        ActState::Done => Status::Success,
        ActState::Failed | ActState::Cancelled => Status::Failure,
    }
}

/// Whether it is a success.
pub fn is_success(status: Status) -> bool
    ensures { result ≡ is_success status }
{
    match status {
        Status::Success => true,
        Status::Idle | Status::Running | Status::Failure => false,
    }
}

/// Whether it is the state of an act that waits.
pub fn is_waiting(state: ActState) -> bool
    ensures { result ≡ is_waiting state }
{
    match state {
        ActState::Waiting => true,
        ActState::Active | ActState::Done | ActState::Failed | ActState::Cancelled => false,
    }
}

/// The status of the sequence of an act that waits for these.
pub fn sequence_status(states: &[ActState], waits: &[u32], act: u32) -> Status
    ensures { result ≡ sequence_status states.now waits.now act }
{
    for wait in waits {
        let status = wait_status(state_at(states, *wait));
        if !is_success(status) {
            return status;
        }
    }
    act_status(state_at(states, act))
}
