//! Laws of listings and of their first bad lines. Nothing computes on this crate.
#![tactic(auto)]

mod laws;

pub use laws::{
    bytes_behind_a_listing_are_late, every_text_is_judged, first_bad_line_is_one,
    lines_make_the_listing, listing_cut_behind_a_line_ends_early, listing_cut_inside_a_line_is_bad,
    listing_is_one,
};
