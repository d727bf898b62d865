//! What the tests of the top call ask and what is to be answered, as data: images, tables, scripts, and whole texts
//! that were worked out by hand from the formats and from the rules of the board and of the runs.
#![tactic(auto)]

pub mod boots;
pub mod images;
pub mod usual;
