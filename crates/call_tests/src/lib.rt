//! Tests of calls over a board and over the whole program: inputs read from texts, whose boards are called in order and in random order;
//! sessions whose runs workers do, with threads. Journals are compared, or judged by the steps of a replay; reports are held against journals.
#![tactic(auto)]

#[cfg(test)]
mod calls;
#[cfg(test)]
mod dice;
#[cfg(test)]
mod drained;
#[cfg(test)]
mod in_order;
#[cfg(test)]
mod judging;
#[cfg(test)]
mod meeting;
#[cfg(test)]
mod random_calls;
#[cfg(test)]
mod random_members;
#[cfg(test)]
mod replans;
#[cfg(test)]
mod reports;
#[cfg(test)]
mod reserves;
#[cfg(test)]
mod rooms;
#[cfg(test)]
mod runs;
#[cfg(test)]
mod searching;
#[cfg(test)]
mod texts;
#[cfg(test)]
mod worlds;
