//! The ops of each kind of agent, each with its effect and its outcomes.

ghost use Rattle.std.specs.Prelude.{◌≡◌, Some};
ghost use Rattle.mpb_spec.specs.declared.agent.Offer.{Offer};
ghost use Rattle.mpb_spec.specs.Configs.{IsModelled, IsModelledBy};
ghost use Rattle.mpb_spec.specs.Delivery.{to_id as an_id, to_logical as a_logical};
ghost use Rattle.mpb_spec.specs.Steps.{effect_of_cpu, effect_of_dev, effect_of_io, next_op, after};
ghost use Rattle.mpb_spec.specs.Outcomes.{outcomes_of, outcomes_of_cpu, outcomes_of_dev, outcomes_of_io};

use crate::machine::Machine;
use crate::telling::tell;
use mpb_spec::{Agent, Aim, Delivery, Destination, Op, Outcomes, TO_ALL, What};

// where a processor's message goes: a physical destination of 255 is all
fn to_id(dest: u8) -> Aim
    ensures { result ≡ an_id dest }
{
    Aim {
        at: Destination::Physical(dest, TO_ALL),
        lowest: false,
    }
}

// the same of a logical destination
fn to_logical(dest: u8) -> Aim
    ensures { result ≡ a_logical dest }
{
    Aim {
        at: Destination::Logical(dest),
        lowest: false,
    }
}

/// An op of a processor, but for its position. Condition: a model that it sets is 0 or 15.
pub fn make_cpu(m: &mut Machine, id: u8, op: Op) -> Outcomes
    requires { IsModelled op }
    ensures state { m.new ≡ effect_of_cpu id op m.old }
    ensures outcomes { result.items ≡ outcomes_of_cpu id op m.old }
{
    let what = match op {
        Op::Init(dest) => return m.deliver(to_id(dest), Delivery::Init),
        Op::Startup(dest, page) => return m.deliver(to_id(dest), Delivery::Startup(page)),
        Op::Ipi(dest, vector) => return m.deliver(to_id(dest), Delivery::Fixed(vector, false)),
        Op::Ipl(dest, vector) => return m.deliver(to_logical(dest), Delivery::Fixed(vector, false)),
        Op::Nmi(dest) => return m.deliver(to_id(dest), Delivery::Nmi),
        Op::Check(dest) => return tell(dest, m.check(dest)),
        Op::Imcr => {
            m.set_imcr();
            What::Done
        }
        Op::Warm(page) => {
            m.set_warm(page);
            What::Done
        }
        Op::Take => m.take(id),
        Op::Poll => m.take(id),
        Op::Eoi => m.end(id),
        Op::Tpr(priority) => {
            m.set_tpr(id, priority);
            What::Done
        }
        Op::Ldr(destination) => {
            m.set_ldr(id, destination);
            What::Done
        }
        Op::Dfr(model) => {
            m.set_dfr(id, model);
            What::Done
        }
        Op::IoSel(at, index) => {
            m.select(at, index);
            What::Done
        }
        Op::IoWin(at, value) => m.write(at, value),
        Op::IoRead(at) => m.read(at),
        _ => What::Done,
    };
    tell(0, what)
}

/// An op of a device, but for its position.
pub fn make_dev(m: &mut Machine, op: Op) -> Outcomes
    ensures state { m.new ≡ effect_of_dev op m.old }
    ensures outcomes { result.items ≡ outcomes_of_dev op m.old }
{
    match op {
        Op::High(at, pin) => tell(0, m.drive(at, pin, true)),
        Op::Low(at, pin) => tell(0, m.drive(at, pin, false)),
        _ => tell(0, What::Done),
    }
}

/// An op of an I/O APIC.
pub fn make_io(m: &mut Machine, at: u8, op: Op) -> Outcomes
    ensures state { m.new ≡ effect_of_io at op m.old }
    ensures outcomes { result.items ≡ outcomes_of_io at op m.old }
{
    match op {
        Op::Collect(pins) => tell(0, m.collect(at, pins)),
        Op::Send(_) => m.send(at),
        Op::Sweep => {
            m.sweep(at);
            tell(0, What::Done)
        }
        _ => tell(0, What::Done),
    }
}

/// The op that an agent may make next is made. Condition: a model that it sets is 0 or 15.
pub fn make(m: &mut Machine, agent: Agent, op: Op) -> Outcomes
    requires may { (f : Offer) × (next_op m.old agent f ≡ Some op) }
    requires model { IsModelledBy agent op }
    ensures state { m.new ≡ after agent op m.old }
    ensures outcomes { result.items ≡ outcomes_of agent op m.old }
{
    match agent {
        Agent::Cpu(id) => {
            let outcomes = make_cpu(m, id, op);
            m.advance_cpu(id);
            outcomes
        }
        Agent::Dev(number) => {
            let outcomes = make_dev(m, op);
            m.advance_device(number);
            outcomes
        }
        Agent::Io(at) => make_io(m, at, op),
    }
}
