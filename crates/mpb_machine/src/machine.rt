//! The state of a board, its small changes, and what its agents may do next.

ghost use Rattle.std.specs.Prelude.{◌≡◌, ◌⊎◌, Some, true, suc, slice_get, not, MatchBool, option_map, option_copied, IfOk, ◌<◌, ◌^◌};
ghost use Rattle.mpb_spec.specs.Plan.{initial_state_of, plan_size};
ghost use Rattle.mpb_spec.specs.declared.agent.Agent.{Agent as AnAgent};
ghost use Rattle.mpb_spec.specs.declared.agent.Op.{Op as AnOp};
ghost use Rattle.mpb_spec.specs.declared.config.Imcr.TheVariants.{Apic};
ghost use Rattle.mpb_spec.specs.LocalApic.{taken, after_end};
ghost use Rattle.mpb_spec.specs.IoApic.{written, change_pin, with_line};
ghost use Rattle.mpb_spec.specs.State.{processor_of, op_at, change_processor, change_at, device_op_at, boot_is_through, all_ended};
ghost use Rattle.mpb_spec.specs.Delivery.{delivered, delivery_outcomes};
ghost use Rattle.mpb_spec.specs.Steps.{with_apic, with_chip, with_pins_of, collected, ended_at_places, level_end, level_vector, deliver_kind, kind_outcomes, sent_message, due_at, send_outcomes, op_of_processor, op_of_device, op_of_place, next_op};
ghost use Rattle.mpb_spec.specs.Asks.{any_step, any_of};
ghost use Rattle.mpb_spec.specs.May.{IsIdle, IsQuiescent, MayAny};
ghost use Rattle.mpb_spec.specs.Outcomes.{taken_by, ended_by, found, of_write, of_read, of_line, of_collect};

use crate::asking::{all_done, any_cpu, any_device, any_place};
use crate::cpu::Cpu;
use crate::device::Dev;
use crate::opening::{cpus_of, devices_of, places_of};
use crate::place::IoPlace;
use crate::telling::{aim_of, kind_of, of_eoi, tell, was_accepted};
use crate::{cpus, devices, places};
use mpb_ioapic::IoApic;
use mpb_lapic::Lapic;
use mpb_spec::{Agent, Aim, Config, Delivery, Imcr, Life, Message, Offer, Op, Outcomes, What};
use std::alloc::{AllocError, Global};
use std::marker::Model;

/// The state of a board: its processors ascending by id, its I/O APICs and devices by place, the interrupt
/// mode register, and the page of the warm-reset vector, where it is set.
#[derive(Drop)]
pub struct Machine {
    cpus: Vec<Cpu>,
    places: Vec<IoPlace>,
    devices: Vec<Dev>,
    imcr: Imcr,
    warm: Option<u8>,
    boot: u8,
    boot_len: u32,
}

impl Model for Machine {
    ghost use Rattle.std.specs.Prelude.{◌≤◌, length};
    ghost use Rattle.mpb_spec.specs.State.{BoardState};

    ghost Value = { BoardState };

    ghost view = { λ m. record { processors = m.cpus.items; places = m.places.items; devices = m.devices.items; imcr = m.imcr; warm = m.warm; boot = m.boot; boot_len = m.boot_len } };

    ghost invariant = { λ m. length m.cpus.items ≤ 8 };
}

// the vector of a level interrupt that ended
fn level_vector(ended: Option<(u8, bool)>) -> Option<u8>
    ensures { result ≡ level_vector ended }
{
    match ended {
        Some((vector, true)) => Some(vector),
        _ => None,
    }
}

impl Machine {
    /// The opening state of a board. Condition: fewer than 2^32 ops and pulses.
    pub fn opening(alloc: Global, config: &Config) -> Result<Machine, AllocError>
        requires { plan_size config.now < 2 ^ 32 }
        ensures { IfOk result (λ m. m ≡ initial_state_of config.now) }
    {
        let Ok(cpus) = cpus_of(alloc, config.cpus.as_slice(), config.boot) else {
            return Err(AllocError);
        };
        let Ok(places) = places_of(alloc, config.ios.as_slice(), config.devices.as_slice()) else {
            return Err(AllocError);
        };
        let Ok(devices) = devices_of(alloc, config.devices.as_slice()) else {
            return Err(AllocError);
        };
        Ok(Machine {
            cpus,
            places,
            devices,
            imcr: if config.imcr { Imcr::Pic } else { Imcr::Absent },
            warm: None,
            boot: config.boot,
            boot_len: config.boot_len,
        })
    }

    /// The interrupt mode register connects the APICs.
    pub fn set_imcr(&mut self)
        ensures { self.new ≡ record self.old { imcr = Apic } }
    {
        self.imcr = Imcr::Apic;
    }

    /// The warm-reset vector is set.
    pub fn set_warm(&mut self, page: u8)
        ensures { self.new ≡ record self.old { warm = Some page } }
    {
        self.warm = Some(page);
    }

    /// A message is delivered, with an outcome for each target.
    pub fn deliver(&mut self, aim: Aim, delivery: Delivery) -> Outcomes
        ensures state { self.new ≡ delivered aim delivery self.old }
        ensures outcomes { result.items ≡ delivery_outcomes aim delivery self.old }
    {
        cpus::deliver_to(self.cpus.as_mut_slice(), self.warm, aim, delivery)
    }

    /// How a processor is found.
    pub fn check(&self, id: u8) -> What
        ensures { result ≡ found (processor_of id self.now.processors) }
    {
        cpus::check(self.cpus.as_slice(), id)
    }

    /// The processor with this id takes a vector, where there is one.
    pub fn take(&mut self, id: u8) -> What
        ensures state { self.new ≡ record self.old { processors = change_processor id (with_apic taken) self.old.processors } }
        ensures outcome { result ≡ taken_by (processor_of id self.old.processors) }
    {
        cpus::take(self.cpus.as_mut_slice(), id)
    }

    /// A processor ends its interrupt, at each I/O APIC too where it is level-triggered.
    pub fn end(&mut self, id: u8) -> What
        ensures state { self.new ≡ record self.old { processors = change_processor id (with_apic after_end) self.old.processors; places = ended_at_places (level_end (processor_of id self.old.processors)) self.old.places } }
        ensures outcome { result ≡ ended_by (processor_of id self.old.processors) }
    {
        let ended = cpus::eoi(self.cpus.as_mut_slice(), id);
        places::end_all(self.places.as_mut_slice(), level_vector(ended));
        of_eoi(ended)
    }

    /// A processor sets its task priority.
    pub fn set_tpr(&mut self, id: u8, tpr: u8)
        ensures { self.new ≡ record self.old { processors = change_processor id (with_apic (λ a. record a { tpr = tpr })) self.old.processors } }
    {
        cpus::set_tpr(self.cpus.as_mut_slice(), id, tpr);
    }

    /// A processor sets its logical destination.
    pub fn set_ldr(&mut self, id: u8, ldr: u8)
        ensures { self.new ≡ record self.old { processors = change_processor id (with_apic (λ a. record a { ldr = ldr })) self.old.processors } }
    {
        cpus::set_ldr(self.cpus.as_mut_slice(), id, ldr);
    }

    /// A processor sets the model of its logical destinations.
    pub fn set_dfr(&mut self, id: u8, model: u8)
        requires { (model ≡ 0) ⊎ (model ≡ 15) }
        ensures { self.new ≡ record self.old { processors = change_processor id (with_apic (λ a. record a { dfr = model })) self.old.processors } }
    {
        cpus::set_dfr(self.cpus.as_mut_slice(), id, model);
    }

    /// An I/O APIC selects a register.
    pub fn select(&mut self, at: u8, index: u8)
        ensures { self.new ≡ record self.old { places = change_at at (with_chip (λ c. record c { index = index })) self.old.places } }
    {
        places::select(self.places.as_mut_slice(), usize::from(at), index);
    }

    /// Its selected register is written.
    pub fn write(&mut self, at: u8, value: u32) -> What
        ensures state { self.new ≡ record self.old { places = change_at at (with_chip (written value)) self.old.places } }
        ensures outcome { result ≡ of_write value (slice_get self.old.places at) }
    {
        places::write(self.places.as_mut_slice(), usize::from(at), value)
    }

    /// Its selected register is read.
    pub fn read(&self, at: u8) -> What
        ensures { result ≡ of_read (slice_get self.now.places at) }
    {
        places::read(self.places.as_slice(), usize::from(at))
    }

    /// A line is driven.
    pub fn drive(&mut self, at: u8, pin: u8, high: bool) -> What
        ensures state { self.new ≡ record self.old { places = change_at at (with_chip (with_pins_of (change_pin pin (with_line high)))) self.old.places } }
        ensures outcome { result ≡ of_line pin high (slice_get self.old.places at) }
    {
        places::drive(self.places.as_mut_slice(), usize::from(at), pin, high)
    }

    /// An I/O APIC collects pulses.
    pub fn collect(&mut self, at: u8, pins: u32) -> What
        ensures state { self.new ≡ record self.old { places = change_at at (collected pins) self.old.places } }
        ensures outcome { result ≡ of_collect pins (slice_get self.old.places at) }
    {
        places::collect(self.places.as_mut_slice(), usize::from(at), pins)
    }

    /// An I/O APIC has swept.
    pub fn sweep(&mut self, at: u8)
        ensures { self.new ≡ record self.old { places = change_at at (λ p. record p { swept = true }) self.old.places } }
    {
        places::sweep(self.places.as_mut_slice(), usize::from(at));
    }

    // what a pin's message delivers is delivered
    fn deliver_kind(&mut self, aim: Aim, kind: Option<Delivery>) -> Outcomes
        ensures state { self.new ≡ deliver_kind aim kind self.old }
        ensures outcomes { result.items ≡ kind_outcomes aim kind self.old }
    {
        match kind {
            Some(delivery) => self.deliver(aim, delivery),
            None => tell(0, What::Unheard),
        }
    }

    // a message of an I/O APIC is delivered, and its pin told whether it was accepted
    fn send_message(&mut self, at: u8, message: &Message) -> Outcomes
        ensures state { self.new ≡ sent_message at (Some message.now) self.old }
        ensures outcomes { result.items ≡ send_outcomes (Some message.now) self.old }
    {
        let outcomes = self.deliver_kind(aim_of(message), kind_of(message));
        let accepted = was_accepted(outcomes.as_slice());
        places::send(
            self.places.as_mut_slice(),
            usize::from(at),
            message.pin,
            accepted,
        );
        outcomes
    }

    /// An I/O APIC sends the message of its least due pin.
    pub fn send(&mut self, at: u8) -> Outcomes
        ensures state { self.new ≡ sent_message at (due_at at self.old) self.old }
        ensures outcomes { result.items ≡ send_outcomes (due_at at self.old) self.old }
    {
        match places::next_due(self.places.as_slice(), usize::from(at)) {
            Some(message) => self.send_message(at, &message),
            None => Outcomes::new(),
        }
    }

    /// A processor's program is one op further.
    pub fn advance_cpu(&mut self, id: u8)
        requires { (o : AnOp) × (op_at (processor_of id self.old.processors) ≡ Some o) }
        ensures { self.new ≡ record self.old { processors = change_processor id (λ p. record p { position = suc p.position }) self.old.processors } }
    {
        cpus::advance(self.cpus.as_mut_slice(), id);
    }

    /// A device's program is one op further.
    pub fn advance_device(&mut self, number: u8)
        requires { (o : AnOp) × (device_op_at (slice_get self.old.devices number) ≡ Some o) }
        ensures { self.new ≡ record self.old { devices = change_at number (λ d. record d { position = suc d.position }) self.old.devices } }
    {
        devices::advance(self.devices.as_mut_slice(), usize::from(number));
    }

    // whether the boot processor has made its first ops
    fn boot_is_through(&self) -> bool
        ensures { result ≡ boot_is_through self.now }
    {
        cpus::is_through(self.cpus.as_slice(), self.boot, self.boot_len)
    }

    // whether each device has made its End
    fn all_ended(&self) -> bool
        ensures { result ≡ all_ended self.now }
    {
        all_done(self.devices.as_slice())
    }

    // the next op of a processor
    fn op_of_cpu(&self, id: u8) -> Option<Op>
        ensures { result ≡ op_of_processor (processor_of id self.now.processors) }
    {
        cpus::next_op(self.cpus.as_slice(), id)
    }

    // of a device
    fn op_of_dev(&self, number: u8) -> Option<Op>
        ensures { result ≡ op_of_device (boot_is_through self.now) (slice_get self.now.devices number) }
    {
        let through = self.boot_is_through();
        devices::next_op(self.devices.as_slice(), usize::from(number), through)
    }

    // of an I/O APIC
    fn op_of_io(&self, at: u8, offer: Offer) -> Option<Op>
        ensures { result ≡ op_of_place (boot_is_through self.now) (all_ended self.now) offer (slice_get self.now.places at) }
    {
        let through = self.boot_is_through();
        let over = self.all_ended();
        places::next_op(
            self.places.as_slice(),
            usize::from(at),
            through,
            over,
            offer,
        )
    }

    /// What the agent makes next with the offer, none where it may not step.
    pub fn next_op(&self, agent: Agent, offer: Offer) -> Option<Op>
        ensures { result ≡ next_op self.now agent offer }
    {
        match (agent, offer) {
            (Agent::Cpu(id), Offer::Next) => self.op_of_cpu(id),
            (Agent::Dev(number), Offer::Next) => self.op_of_dev(number),
            (Agent::Io(at), offer) => self.op_of_io(at, offer),
            _ => None,
        }
    }

    // whether some agent may step
    fn any_step(&self) -> bool
        ensures { result ≡ any_step self.now }
    {
        let through = self.boot_is_through();
        let over = self.all_ended();
        let cpus = self.cpus.as_slice();
        any_cpu(cpus, cpus)
            || any_place(self.places.as_slice(), through, over)
            || any_device(self.devices.as_slice(), through)
    }

    /// Whether no agent may step with any offer.
    pub fn quiet(&self) -> bool
        ensures { MatchBool result (IsQuiescent self.now) ((g : AnAgent) × MayAny self.now g) }
    {
        !self.any_step()
    }

    // whether the agent may step
    fn any_of(&self, agent: Agent) -> bool
        ensures { result ≡ any_of self.now agent }
    {
        match agent {
            Agent::Cpu(id) => self.op_of_cpu(id).is_some(),
            Agent::Dev(number) => self.op_of_dev(number).is_some(),
            Agent::Io(at) => {
                let through = self.boot_is_through();
                let over = self.all_ended();
                places::offer(self.places.as_slice(), usize::from(at), through, over).is_some()
            }
        }
    }

    /// Whether the agent may step with some offer.
    pub fn can_any(&self, agent: Agent) -> bool
        ensures { MatchBool result (MayAny self.now agent) (IsIdle self.now agent) }
    {
        self.any_of(agent)
    }

    /// The life of the processor with this id, none where there is none such.
    pub fn life(&self, id: u8) -> Option<Life>
        ensures { result ≡ option_map (λ p. p.life) (processor_of id self.now.processors) }
    {
        cpus::life(self.cpus.as_slice(), id)
    }

    /// Its local APIC.
    pub fn lapic(&self, id: u8) -> Option<&Lapic>
        ensures { option_copied result ≡ option_map (λ p. p.apic) (processor_of id self.now.processors) }
    {
        cpus::lapic(self.cpus.as_slice(), id)
    }

    /// The registers and pins of the I/O APIC at this place, none where there is none.
    pub fn io(&self, at: u8) -> Option<&IoApic>
        ensures { option_copied result ≡ option_map (λ p. p.chip) (slice_get self.now.places at) }
    {
        places::chip(self.places.as_slice(), usize::from(at))
    }

    /// The interrupt mode register.
    pub fn imcr(&self) -> Imcr
        ensures { result ≡ self.now.imcr }
    {
        self.imcr
    }
}
