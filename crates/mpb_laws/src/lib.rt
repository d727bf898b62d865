//! Laws of legal journals: they grow by steps, they are no longer than the room of their config, and
//! every vector that was set was taken or is still requested. A law is the contract of a function
//! that does nothing: it holds of every config and every journal.
#![tactic(auto)]

mod journals;
mod requests;
mod room;

pub use journals::{
    entries_are_steps_after_those_before, first_parts_are_legal, models_are_flat_or_cluster,
    parts_stay, steps_go_on,
};
pub use requests::set_vectors_are_taken_or_requested;
pub use room::{
    journals_are_within_their_room, openings_cost_their_room, rooms_are_small,
    steps_are_within_their_cost,
};
