//! Tests of what is known, of actions and of plans: calls of the libraries that the program does not make in this way;
//! and of three planners at once, with threads.
#![tactic(auto)]

#[cfg(test)]
mod orders;
#[cfg(test)]
mod patching;
#[cfg(test)]
mod planners;
#[cfg(test)]
mod plans;
#[cfg(test)]
mod searching;
#[cfg(test)]
mod telling;
#[cfg(test)]
mod touching;
#[cfg(test)]
mod trees;
#[cfg(test)]
mod warehouse;
#[cfg(test)]
mod watching;
#[cfg(test)]
mod worlds;
