//! Routes and findings as texts of lines, and the ELCR as a word of the command line. The formats are
//! this project's own.
#![tactic(auto)]

mod elcr;
mod finding_lines;
mod laws;
mod route_lines;

pub use elcr::read_elcr;
pub use finding_lines::print_findings;
pub use laws::elcr_words;
pub use route_lines::print_routes;
