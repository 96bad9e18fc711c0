//! Tests of the libraries of texts: tables of texts, each with what is told of it.
#![tactic(auto)]

#[cfg(test)]
mod command_lines;
#[cfg(test)]
mod domains;
#[cfg(test)]
mod memory;
#[cfg(test)]
mod names;
#[cfg(test)]
mod numbers;
#[cfg(test)]
mod script_lines;
#[cfg(test)]
mod shapes;
#[cfg(test)]
mod tables;
#[cfg(test)]
mod words;
