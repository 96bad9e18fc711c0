//! Tests with threads: they take turns at a value that holds entries and an input, so that both may go to threads; and they send reports
//! over a belt.
#![tactic(auto)]

#[cfg(test)]
mod belts;
#[cfg(test)]
mod turns;
