//! Who may step, and with what.

ghost use Rattle.std.specs.Prelude.{◌≡◌, Some, nat_le, length};
ghost use Rattle.std.specs.List.{list_all};
ghost use Rattle.mpb_spec.specs.Steps.{op_of_place, send_of};
ghost use Rattle.mpb_spec.specs.Asks.{any_processor, any_place, any_device};

use crate::cpu::Cpu;
use crate::cpus::next_op;
use crate::device::Dev;
use crate::place::IoPlace;
use mpb_spec::{Message, Offer, Op};

// the op that sends a message
fn send_of(message: Option<Message>) -> Option<Op>
    ensures { result ≡ send_of message }
{
    match message {
        Some(message) => Some(Op::Send(message.pin)),
        None => None,
    }
}

/// The next op of an I/O APIC; `through` says whether the boot program is through, `over` whether each
/// device has ended.
pub fn op_of_place(place: &IoPlace, through: bool, over: bool, offer: Offer) -> Option<Op>
    ensures { result ≡ op_of_place through over offer (Some place.now) }
{
    match offer {
        Offer::Next => send_of(place.next_due()),
        Offer::Collect(pins) => {
            if through
                && !place.has_swept()
                && pins > 0
                && pins < 0x100_0000
                && place.has_left(pins)
            {
                Some(Op::Collect(pins))
            } else {
                None
            }
        }
        Offer::Sweep => {
            if !place.has_swept() && over {
                Some(Op::Sweep)
            } else {
                None
            }
        }
    }
}

/// Whether each device has made its End.
pub fn all_done(devices: &[Dev]) -> bool
    ensures { result ≡ list_all (λ d. nat_le (length d.program) d.position) devices.now }
{
    match devices {
        [] => true,
        [device, rest @ ..] => device.is_done() && all_done(rest),
    }
}

/// Whether some processor among `rest` may step, where `all` are there.
pub fn any_cpu(all: &[Cpu], rest: &[Cpu]) -> bool
    ensures { result ≡ any_processor all.now rest.now }
{
    match rest {
        [] => false,
        [cpu, more @ ..] => next_op(all, cpu.id()).is_some() || any_cpu(all, more),
    }
}

/// Whether some I/O APIC may step.
pub fn any_place(places: &[IoPlace], through: bool, over: bool) -> bool
    ensures { result ≡ any_place through over places.now }
{
    match places {
        [] => false,
        [place, rest @ ..] => place.offer(through, over).is_some()
            || any_place(rest, through, over),
    }
}

/// Whether some device may step.
pub fn any_device(devices: &[Dev], through: bool) -> bool
    ensures { result ≡ any_device through devices.now }
{
    match devices {
        [] => false,
        [device, rest @ ..] => device.next_op(through).is_some() || any_device(rest, through),
    }
}
