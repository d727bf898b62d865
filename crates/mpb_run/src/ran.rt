//! A board at its end.

use mpb_board::Board;
use mpb_spec::Account;

/// A board that has come to its end, and what its devices pulsed.
#[derive(Drop)]
pub struct Ran {
    pub board: Board,
    pub account: Account,
}
