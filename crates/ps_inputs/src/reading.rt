//! Reading files and scripts.
mod domains;
mod files;
mod flatten;
mod generated;
mod inputs;
mod members;
mod scripts;

pub use domains::{Judged, read_domain_file};
pub use files::read_text;
pub use flatten::read_script;
pub use generated::generate;
pub use inputs::{Unjudged, read_input};
pub use members::MemberText;
pub use scripts::Script;
