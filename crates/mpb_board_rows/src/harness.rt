//! Boards that a row steps, and what the rows assert of them.

ghost use Rattle.std.specs.Prelude.{◌<◌, ◌^◌, IfOk, IfSome};
ghost use Rattle.mpb_spec.specs.Plan.{plan_size};

use crate::rows::{Line, Row, is_made, row_of};
use mpb_board::{Agent, Board, Config, Imcr, Life, Offer, room};
use mpb_ioapic::IoApic;
use mpb_lapic::Lapic;
use std::alloc::{AllocError, Global};
use std::fmt::Debug;
use std::process::Abort;

/// Asserts that a call gave what was wanted.
pub(crate) fn same<T: PartialEq + Debug + Drop>(rt: &impl Abort, name: &str, got: T, want: T) {
    assert_eq!(rt; got, want, "{name}");
}

/// The board of a config that was made, in its opening state.
pub(crate) fn opened(
    rt: &impl Abort,
    alloc: Global,
    made: Result<Option<Config>, AllocError>,
) -> Board
    requires { IfOk made (λ some. IfSome some (λ c. plan_size c < 2 ^ 32)) }
{
    match made {
        Ok(Some(config)) => opened_as(rt, alloc, config),
        Ok(None) => panic!(rt; "no config"),
        Err(_) => panic!(rt; "out of memory"),
    }
}

fn opened_as(rt: &impl Abort, alloc: Global, config: Config) -> Board
    requires { plan_size config < 2 ^ 32 }
{
    match Board::new(alloc, config) {
        Ok(board) => board,
        Err(_) => panic!(rt; "out of memory"),
    }
}

/// Asserts the room for the journal.
pub(crate) fn has_room(rt: &impl Abort, board: &Board, want: u64) {
    same(rt, "room", room(board.config()), want);
}

/// Asserts how many processors the board has.
pub(crate) fn has_processors(rt: &impl Abort, board: &Board, want: usize) {
    same(rt, "processors", board.config().cpus.len(), want);
}

/// Asserts that the board makes this entry.
pub(crate) fn makes(rt: &impl Abort, board: &mut Board, row: Row) {
    let number = board.journal().len();
    let made = is_made(board, row);
    same(
        rt,
        "an entry's number, and whether it is made",
        (number, made),
        (number, true),
    );
}

/// Asserts that the board makes these entries, one after the other.
pub(crate) fn makes_all(rt: &impl Abort, board: &mut Board, lines: &[Line]) {
    for line in lines {
        makes(rt, board, row_of(*line));
    }
}

/// Asserts that the board makes these entries of an agent, which may step before each, while the board isn't quiet.
pub(crate) fn all_go_on(rt: &impl Abort, board: &mut Board, agent: Agent, lines: &[Line]) {
    for line in lines {
        goes_on(rt, board, agent, row_of(*line));
    }
}

/// Asserts that the board makes this entry of an agent, which may step before, while the board isn't quiet.
fn goes_on(rt: &impl Abort, board: &mut Board, agent: Agent, row: Row) {
    is_quiet(rt, board, false);
    may_step(rt, board, agent, true);
    makes(rt, board, row);
}

/// Asserts that the agent may collect none of these sets of pins.
pub(crate) fn refuses_collections(rt: &impl Abort, board: &Board, agent: Agent, sets: &[u32]) {
    for pins in sets {
        refuses(rt, board, agent, Offer::Collect(*pins));
    }
}

/// Asserts that no agent may step with the offer beside it.
pub(crate) fn refuses_all(rt: &impl Abort, board: &Board, offers: &[(Agent, Offer)]) {
    for (agent, offer) in offers {
        refuses(rt, board, *agent, *offer);
    }
}

/// Asserts that the agent may not step with the offer.
pub(crate) fn refuses(rt: &impl Abort, board: &Board, agent: Agent, offer: Offer) {
    let number = board.journal().len();
    let may = board.can_step(agent, offer);
    same(
        rt,
        "before an entry, whether an agent may step",
        (number, may),
        (number, false),
    );
}

/// Asserts whether the agent may step with some offer.
pub(crate) fn may_step(rt: &impl Abort, board: &Board, agent: Agent, want: bool) {
    same(
        rt,
        "whether an agent may step",
        (agent, board.can_any(agent)),
        (agent, want),
    );
}

/// Asserts whether no agent may step.
pub(crate) fn is_quiet(rt: &impl Abort, board: &Board, want: bool) {
    same(rt, "whether the board is quiet", board.quiet(), want);
}

/// Asserts how many entries the journal has.
pub(crate) fn has_entries(rt: &impl Abort, board: &Board, want: usize) {
    same(rt, "entries", board.journal().len(), want);
}

/// Asserts the life of a processor.
pub(crate) fn has_life(rt: &impl Abort, board: &Board, id: u8, want: Option<Life>) {
    let got = board.life(id);
    assert!(rt; got == want, "the life of {id}");
}

/// Asserts the interrupt mode register.
pub(crate) fn has_imcr(rt: &impl Abort, board: &Board, want: Imcr) {
    let got = board.imcr();
    assert!(rt; got == want, "the interrupt mode register");
}

/// Asserts that the processor's task priority is 0, and that it has the vector in none of its sets.
pub(crate) fn has_clear_vector(rt: &impl Abort, board: &Board, id: u8, vector: u8) {
    match board.lapic(id) {
        Some(lapic) => is_clear_of(rt, lapic, vector),
        None => panic!(rt; "no processor {id}"),
    }
}

fn is_clear_of(rt: &impl Abort, lapic: &Lapic, vector: u8) {
    same(rt, "task priority", lapic.tpr(), 0);
    same(rt, "requested", lapic.irr(vector), false);
    same(rt, "in service", lapic.isr(vector), false);
    same(rt, "level-triggered", lapic.tmr(vector), false);
}

/// Asserts that no pin of the I/O APIC is asserted, due or waits for an end of interrupt.
pub(crate) fn has_clear_pins(rt: &impl Abort, board: &Board, place: u8) {
    match board.io(place) {
        Some(chip) => is_clear(rt, chip),
        None => panic!(rt; "no I/O APIC {place}"),
    }
}

fn is_clear(rt: &impl Abort, chip: &IoApic) {
    same(rt, "asserted lines", chip.line(), 0);
    same(rt, "due pins", chip.due(), 0);
    same(rt, "remote IRR", chip.remote(), 0);
}

/// Asserts that there is no such processor, and no such I/O APIC.
pub(crate) fn is_without(rt: &impl Abort, board: &Board, id: u8, place: u8) {
    has_life(rt, board, id, None);
    same(rt, "a local APIC", board.lapic(id).is_some(), false);
    same(rt, "an I/O APIC", board.io(place).is_some(), false);
}
