//! Conditions and numeric expressions: what nested lists mean as one, by what words mean where it stands.
#![tactic(auto)]

mod conditions;
mod scopes;
mod signs;
mod values;

pub use conditions::{add_condition, condition};
pub use scopes::{MOST_IN_FORCE, Scope};
pub use signs::{is_and, is_not, is_number};
pub use values::value;
