//! All processors: the one with an id, and the targets of a message.

ghost use Rattle.std.specs.Prelude.{◌≡◌, ◌⊎◌, ◌≤◌, ◌<◌, Some, None, IfSome, map, length, slice_get, suc, option_map, option_copied};
ghost use Rattle.mpb_spec.specs.declared.agent.Op.{Op as AnOp};
ghost use Rattle.mpb_spec.specs.State.{processor_of, place_of, change_processor, op_at, is_through};
ghost use Rattle.mpb_spec.specs.Steps.{with_apic, ended_at, op_of_processor};
ghost use Rattle.mpb_spec.specs.LocalApic.{taken, ended, after_end};
ghost use Rattle.mpb_spec.specs.Outcomes.{taken_by, found};
ghost use Rattle.mpb_spec.specs.Delivery.{outcomes_at, delivered_to, is_target, byte_of};
ghost use Rattle.mpb_spec.specs.Ranks.{is_less, lesser, least_rank, rank_sought, is_chosen};

use crate::cpu::Cpu;
use crate::telling::{of_life, of_take};
use mpb_lapic::Lapic;
use mpb_spec::{Aim, Delivery, Destination, Life, Op, Outcome, Outcomes, What};

/// The place of the processor with this id.
pub fn find(cpus: &[Cpu], id: u8) -> Option<usize>
    ensures place { result ≡ place_of id cpus.now }
    ensures within { IfSome result (λ i. i < length cpus.now) }
{
    match cpus {
        [] => None,
        [cpu, rest @ ..] => {
            if cpu.id() == id {
                Some(0)
            } else {
                match find(rest, id) {
                    Some(place) => Some(place + 1),
                    None => None,
                }
            }
        }
    }
}

/// The processor with this id takes a vector.
pub fn take(cpus: &mut [Cpu], id: u8) -> What
    ensures state { cpus.new ≡ change_processor id (with_apic taken) cpus.old }
    ensures outcome { result ≡ taken_by (processor_of id cpus.old) }
{
    match find(cpus, id) {
        Some(place) => {
            let cpu = &mut cpus[place];
            of_take(cpu.take())
        }
        None => What::Nothing,
    }
}

/// It ends the interrupt that it has in service.
pub fn eoi(cpus: &mut [Cpu], id: u8) -> Option<(u8, bool)>
    ensures state { cpus.new ≡ change_processor id (with_apic after_end) cpus.old }
    ensures outcome { result ≡ ended_at (processor_of id cpus.old) }
{
    match find(cpus, id) {
        Some(place) => {
            let cpu = &mut cpus[place];
            cpu.eoi()
        }
        None => None,
    }
}

/// Its program is one op further. Condition: there is such a processor, and its program isn't at its end.
pub fn advance(cpus: &mut [Cpu], id: u8)
    requires { (o : AnOp) × (op_at (processor_of id cpus.old) ≡ Some o) }
    ensures { cpus.new ≡ change_processor id (λ p. record p { position = suc p.position }) cpus.old }
{
    if let Some(place) = find(cpus, id) {
        let cpu = &mut cpus[place];
        cpu.advance();
    }
}

/// It sets its task priority.
pub fn set_tpr(cpus: &mut [Cpu], id: u8, tpr: u8)
    ensures { cpus.new ≡ change_processor id (with_apic (λ a. record a { tpr = tpr })) cpus.old }
{
    if let Some(place) = find(cpus, id) {
        let cpu = &mut cpus[place];
        cpu.set_tpr(tpr);
    }
}

/// It sets its logical destination.
pub fn set_ldr(cpus: &mut [Cpu], id: u8, ldr: u8)
    ensures { cpus.new ≡ change_processor id (with_apic (λ a. record a { ldr = ldr })) cpus.old }
{
    if let Some(place) = find(cpus, id) {
        let cpu = &mut cpus[place];
        cpu.set_ldr(ldr);
    }
}

/// It sets the model of its logical destinations.
pub fn set_dfr(cpus: &mut [Cpu], id: u8, model: u8)
    requires { (model ≡ 0) ⊎ (model ≡ 15) }
    ensures { cpus.new ≡ change_processor id (with_apic (λ a. record a { dfr = model })) cpus.old }
{
    if let Some(place) = find(cpus, id) {
        let cpu = &mut cpus[place];
        cpu.set_dfr(model);
    }
}

/// How the processor with this id is found.
pub fn check(cpus: &[Cpu], id: u8) -> What
    ensures { result ≡ found (processor_of id cpus.now) }
{
    match find(cpus, id) {
        Some(place) => {
            let cpu = &cpus[place];
            of_life(cpu.life())
        }
        None => What::Absent,
    }
}

/// Its life.
pub fn life(cpus: &[Cpu], id: u8) -> Option<Life>
    ensures { result ≡ option_map (λ p. p.life) (processor_of id cpus.now) }
{
    match find(cpus, id) {
        Some(place) => {
            let cpu = &cpus[place];
            Some(cpu.life())
        }
        None => None,
    }
}

/// Its local APIC.
pub fn lapic(cpus: &[Cpu], id: u8) -> Option<&Lapic>
    ensures { option_copied result ≡ option_map (λ p. p.apic) (processor_of id cpus.now) }
{
    match find(cpus, id) {
        Some(place) => {
            let cpu = &cpus[place];
            Some(cpu.lapic())
        }
        None => None,
    }
}

/// The op that the one with this id makes next.
pub fn next_op(cpus: &[Cpu], id: u8) -> Option<Op>
    ensures { result ≡ op_of_processor (processor_of id cpus.now) }
{
    match find(cpus, id) {
        Some(place) => {
            let cpu = &cpus[place];
            cpu.next_op()
        }
        None => None,
    }
}

/// Whether it has made its first `count` ops.
pub fn is_through(cpus: &[Cpu], id: u8, count: u32) -> bool
    ensures { result ≡ is_through (processor_of id cpus.now) count }
{
    match find(cpus, id) {
        Some(place) => {
            let cpu = &cpus[place];
            cpu.has_made(count)
        }
        None => false,
    }
}

// whether a rank is less: by priority, then by id
fn is_less(one: (u8, u8), other: (u8, u8)) -> bool
    ensures { result ≡ is_less one other }
{
    one.0 < other.0 || one.0 == other.0 && one.1 < other.1
}

// the lesser of a rank and another, where there is another
fn lesser(one: (u8, u8), other: Option<(u8, u8)>) -> (u8, u8)
    ensures { result ≡ lesser one other }
{
    match other {
        Some(other) if is_less(other, one) => other,
        _ => one,
    }
}

// the least rank among the processors that a destination names and that run
fn least_rank(cpus: &[Cpu], to: Destination) -> Option<(u8, u8)>
    ensures { result ≡ least_rank to cpus.now }
{
    match cpus {
        [] => None,
        [cpu, rest @ ..] => {
            let least = least_rank(rest, to);
            if cpu.is_ready(to) {
                Some(lesser(cpu.rank(), least))
            } else {
                least
            }
        }
    }
}

// that of a message of lowest priority
fn rank_sought(cpus: &[Cpu], aim: Aim) -> Option<(u8, u8)>
    ensures { result ≡ rank_sought aim cpus.now }
{
    if aim.lowest {
        least_rank(cpus, aim.at)
    } else {
        None
    }
}

// the destination's byte
fn byte_of(to: Destination) -> u8
    ensures { result ≡ byte_of to }
{
    match to {
        Destination::Physical(dest, _) => dest,
        Destination::Logical(dest) => dest,
    }
}

// a message is delivered to the processors that are chosen among these
fn deliver_to_chosen(
    cpus: &mut [Cpu],
    warm: Option<u8>,
    to: Destination,
    rank: Option<(u8, u8)>,
    delivery: Delivery,
) -> Outcomes
    requires { length cpus.old ≤ 8 }
    ensures state { cpus.new ≡ map (delivered_to warm (is_chosen to rank) delivery) cpus.old }
    ensures outcomes { result.items ≡ outcomes_at warm (is_chosen to rank) (byte_of to) delivery cpus.old }
{
    let mut outcomes = Outcomes::new();
    for cpu in cpus.iter_mut() {
        if cpu.is_chosen(to, rank) {
            let at = cpu.id();
            let what = cpu.receive(warm, delivery);
            outcomes.push(Outcome { at, what });
        }
    }
    if outcomes.is_empty() {
        outcomes.push(Outcome {
            at: byte_of(to),
            what: What::Absent,
        });
    }
    outcomes
}

/// A message is delivered to its targets among these processors, of which there are at most 8: an outcome
/// for each, ascending by id, or `Absent` at its destination's byte where there is none.
pub fn deliver_to(cpus: &mut [Cpu], warm: Option<u8>, aim: Aim, delivery: Delivery) -> Outcomes
    requires { length cpus.old ≤ 8 }
    ensures state { cpus.new ≡ map (delivered_to warm (is_target aim cpus.old) delivery) cpus.old }
    ensures outcomes { result.items ≡ outcomes_at warm (is_target aim cpus.old) (byte_of aim.at) delivery cpus.old }
{
    let rank = rank_sought(cpus, aim);
    deliver_to_chosen(cpus, warm, aim.at, rank, delivery)
}
