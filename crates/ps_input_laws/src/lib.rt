//! Whatever the texts of an input are, they are read as one or have a fault; what stands in inputs that are read can be said, so the texts
//! of their histories are read back; and a text is found to be one thing: laws that join those of texts and of printed histories with the
//! reading of inputs and the judging of journals.
#![tactic(auto)]

mod laws;

pub use laws::{
    every_input_is_read, every_request_is_read, every_script_is_read, every_session_is_read,
    flattened_scripts_are_commands, inputs_are_sayable, read_histories_are_one,
    read_histories_are_read, texts_are_found_to_be_one,
};
