//! Sizes that cut the words of the search, its areas, the pointer, the header, the base and the extended
//! part.

use crate::harness::are_shown;
use mptab_cases::images::sizes::sizes;
use std::test::Fail;

#[test]
fn sizes_that_cut(rt: HostRuntime) -> Result<(), Fail> {
    are_shown(&rt, rt.alloc(), sizes())
}
