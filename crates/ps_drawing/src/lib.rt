//! The picture of a run as a text of 100 columns, and as an SVG image.
#![tactic(auto)]

mod columns;
mod elements;
mod laws;
mod signs;
mod texts;
mod vectors;

pub use laws::no_bar_vanishes;
pub use texts::picture_text;
pub use vectors::picture_svg;
