//! What a report of a run is: the lines of its entries, of each device's log and of the state that the entries
//! leave, as definitions. The format is this project's own.
#![tactic(auto)]
