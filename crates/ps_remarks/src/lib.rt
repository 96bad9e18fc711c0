//! Remarks, for people, on texts: where a fault stands, what is wrong there, and what may stand there instead.
#![tactic(auto)]

mod closest;
mod domains;
mod expected;
mod forms;
mod lexing;
mod lines;
mod page;
mod said;
mod scripts;
mod words;

pub use domains::domain_or_fault;
pub use lines::{say_bad_line, say_close};
pub use page::Page;
pub use said::Said;
pub use scripts::{Origin, Source, Sources, part_of, sources_of, text_in};
pub use words::explain_words;
