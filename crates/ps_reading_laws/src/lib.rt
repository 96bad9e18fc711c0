//! That each text is read as something, that levels of depth are parentheses, and that each domain that can be written is read back from
//! its canonical text: laws that stand above the definitions of what domains, lines and members are read as.
#![tactic(auto)]

mod laws;

pub use laws::{
    depths_are_parentheses, depths_are_told_there, domains_are_read_back, every_line_is_read,
    every_member_is_read, every_text_is_read, levels_are_parentheses, line_depths_are_parentheses,
    member_depths_are_parentheses, printed_domains_are_one, read_domains_are_writable,
    samples_count,
};
