//! What is called while members work.
use ps_board::Grant;
use std::sync::Wait;

/// What is called while a unit of work is done, outside of the board. It may wait.
pub trait Gate {
    fn unit<R: Wait>(&self, rt: &R, grant: &Grant);
}

/// Does nothing.
#[derive(Clone, Copy)]
pub struct NoGate;

impl Gate for NoGate {
    fn unit<R: Wait>(&self, _rt: &R, _grant: &Grant) {}
}
