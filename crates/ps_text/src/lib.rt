//! The words of a text, the table of its names, and the files and sinks of the outside.
#![tactic(auto)]

mod decimals;
mod laws;
mod lexing;
mod memory;
mod reads;
mod sinks;
mod spans;
mod table;
mod word_spans;

pub use decimals::{NUMBER_BYTES, NumRefusal, print_number, read_number};
pub use laws::{faults_are_one, texts_have_tokens, tokens_are_faultless, tokens_are_one};
pub use lexing::{Class, LexRefusal, Token, tokens};
pub use memory::{MemFiles, MemSink, SureFiles, SureSink, risen};
pub use reads::{FileRefusal, Files};
pub use sinks::{Sink, SinkRefusal, put};
pub use spans::{Span, lines, script_lines};
pub use table::{LONGEST_NAME, NameRefusal, Names, is_name};
pub use word_spans::{Words, is_blank};
