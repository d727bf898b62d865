//! Who is on a board.

ghost use Rattle.std.specs.Prelude.{◌≡◌, ◌&&◌, IfOk};
ghost use Rattle.mpb_spec.specs.Numbers.{has};
ghost use Rattle.mpb_setup.specs.Board.{enabled_ids, io_ids, is_present, board_ids};

use mpb_script::Script;
use mpt_route::Platform;
use std::alloc::{AllocError, Global};

/// The ids of the enabled processors, in table order.
pub fn enabled_ids(alloc: Global, p: &Platform) -> Result<Vec<u8>, AllocError>
    ensures { IfOk result (λ ids. ids.items ≡ enabled_ids p.now) }
{
    let processors = p.processors.as_slice();
    let mut ids = Vec::new(alloc);
    for e in processors {
        if e.is_enabled() {
            let Ok(()) = ids.push(e.apic) else {
                return Err(AllocError);
            };
        }
    }
    Ok(ids)
}

/// The ids of the enabled I/O APICs, by place.
pub fn io_ids(alloc: Global, p: &Platform) -> Result<Vec<u8>, AllocError>
    ensures { IfOk result (λ ids. ids.items ≡ io_ids p.now) }
{
    let ios = p.ios.as_slice();
    let mut ids = Vec::new(alloc);
    for io in ios {
        if io.is_enabled() {
            let Ok(()) = ids.push(io.id) else {
                return Err(AllocError);
            };
        }
    }
    Ok(ids)
}

/// Whether the processor with this id is one of the list.
pub fn has_id(ids: &[u8], id: u8) -> bool
    ensures { result ≡ has id ids.now }
{
    ids.contains(&id)
}

/// Whether the script lists it as present, or has no list.
pub fn is_present(s: &Script, id: u8) -> bool
    ensures { result ≡ is_present s.now.present id }
{
    match &s.present {
        None => true,
        Some(ids) => has_id(ids.as_slice(), id),
    }
}

// whether it is enabled and present
fn is_on_board(enabled: &[u8], s: &Script, id: u8) -> bool
    ensures { result ≡ (has id enabled.now && is_present s.now.present id) }
{
    has_id(enabled, id) && is_present(s, id)
}

/// The ids of the board's processors, ascending.
pub fn board_ids(
    alloc: Global,
    p: &Platform,
    enabled: &[u8],
    s: &Script,
) -> Result<Vec<u8>, AllocError>
    requires { enabled.now ≡ enabled_ids p.now }
    ensures { IfOk result (λ ids. ids.items ≡ board_ids p.now s.now) }
{
    let mut ids = Vec::new(alloc);
    for n in 0..256u16 {
        let id = n as u8;
        if is_on_board(enabled, s, id) {
            let Ok(()) = ids.push(id) else {
                return Err(AllocError);
            };
        }
    }
    Ok(ids)
}
