//! What stands below the top calls: the words of a command line, what a form comes to over the files that it
//! names, but for those that run a board, and the delivery of the answer.
#![tactic(auto)]

mod answer;
mod board;
mod calls_text;
mod delivery;
mod drill;
mod ending;
mod file;
mod firmware;
mod image;
mod limited;
mod listing;
mod madtcmp;
mod number;
mod pic;
mod pircmp;
mod refusals;
mod replay;
mod report;
mod script;
mod source;
mod status;
mod tables;
mod words;

pub use answer::Answer;
pub use board::{BoardEnding, refuse_board, take_board};
pub use delivery::{deliver_line, deliver_text};
pub use drill::give_of_drill;
pub use ending::{Ending, refuse};
pub use madtcmp::give_of_madtcmp;
pub use pic::give_of_pic;
pub use pircmp::give_of_pircmp;
pub use replay::give_of_replay;
pub use status::{DONE, USAGE};
pub use tables::give_of_tables;
pub use words::{
    BoardFiles, Command, MadtFiles, PicFiles, PirFiles, ReplayFiles, StillCommand, TablesCommand,
    command_of,
};
