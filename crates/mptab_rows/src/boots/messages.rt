//! What a message does by its mode, its trigger and its outcome.

use crate::boots::harness::are_traced;
use mptab_cases::boots::messages::rows;
use std::test::Fail;

#[test]
fn messages_do_what_their_entries_say(rt: HostRuntime) -> Result<(), Fail> {
    are_traced(&rt, rt.alloc(), rows())
}
