//! The files and the streams of the system, for a program to hand in.
#![tactic(auto)]

mod real;

pub use real::{RealFiles, RealSink};
