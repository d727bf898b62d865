//! The pair of controllers.

ghost use Rattle.std.specs.Prelude.{◌≡◌, ◌≢◌, ◌<◌, ◌≤◌, ◌-◌, is_some, find, IfSome};
ghost use Rattle.std.specs.List.{range_with_len};
ghost use Rattle.mpb_spec.specs.Numbers.{has};
ghost use Rattle.mpf_pair.specs.Pair.{power_on, after_put, after_command, after_start, after_end, chosen, with_settings, value_at, isr_of, irr_of, after_line, risen, fallen, is_masked, is_held, is_open, is_asked, is_eligible, first_eligible, intr_of, IsPair, slave_asks, ack_answer, after_ack, acknowledged, vector_of};
ghost use Rattle.mpf_pair.specs.declared.settings.Side.TheVariants as side;

use crate::bits::{has_bit, has_line, has_up_to, with_bit, with_cascade, without_bit};
use crate::controller::Controller;
use crate::port::Port;
use crate::settings::{Register, Side};
use std::marker::Model;

/// Two 8259A, the slave at the master's line 2. Contracts see how each is set, and the requests, the
/// marks in service and the lines that are up as three ascending lists over lines 0 to 15.
#[derive(Drop)]
pub struct Pair {
    master: Controller,
    slave: Controller,
}

impl Model for Pair {
    ghost use Rattle.mpf_pair.specs.Pair.{PairState};
    ghost use Rattle.mpf_pair.specs.Registers.{lines_of};

    ghost Value = { PairState };

    ghost view = { λ p. record { master = p.master.settings; slave = p.slave.settings; requests = lines_of p.master.requests p.slave.requests; marks = lines_of p.master.marks p.slave.marks; lines = lines_of p.master.lines p.slave.lines } };

    ghost use Rattle.std.specs.Prelude.{◌≡◌, ◌≤◌, false};
    ghost use Rattle.mpf_pair.specs.Pair.{is_bit};

    ghost invariant = { λ p. (p.master.settings.base ≤ 248) × (p.slave.settings.base ≤ 248) × (is_bit 2 p.master.requests ≡ false) × (is_bit 2 p.master.lines ≡ false) };
}

impl Pair {
    /// The pair at power-on.
    pub fn new() -> Pair
        ensures state { result ≡ power_on }
    {
        Pair {
            master: Controller::new(),
            slave: Controller::new(),
        }
    }

    /// A write of a port.
    pub fn put(&mut self, port: Port, v: u8)
        ensures state { self.new ≡ after_put port v self.old }
    {
        match port {
            Port::Master => self.command(Side::Master, v),
            Port::MasterData => self.master.settings.write(v),
            Port::Slave => self.command(Side::Slave, v),
            Port::SlaveData => self.slave.settings.write(v),
        }
    }

    // a write of a first port
    fn command(&mut self, side: Side, v: u8)
        ensures { self.new ≡ after_command side v self.old }
    {
        if has_bit(v, 4) {
            self.start(side, v);
        } else if has_bit(v, 3) {
            self.choose(side, v);
        } else {
            self.end(side, v);
        }
    }

    // the first initialisation word
    fn start(&mut self, side: Side, v: u8)
        ensures { self.new ≡ after_start side v self.old }
    {
        match side {
            Side::Master => self.master.start(v),
            Side::Slave => self.slave.start(v),
        }
    }

    // the third operation word
    fn choose(&mut self, side: Side, v: u8)
        ensures { self.new ≡ with_settings side (chosen v) self.old }
    {
        match side {
            Side::Master => self.master.settings.choose(v),
            Side::Slave => self.slave.settings.choose(v),
        }
    }

    // the second operation word
    fn end(&mut self, side: Side, v: u8)
        ensures { self.new ≡ after_end side v self.old }
    {
        match side {
            Side::Master => self.master.end(v),
            Side::Slave => self.slave.end(v),
        }
    }

    /// A read of a port.
    pub fn get(&self, port: Port) -> u8
        ensures value { result ≡ value_at port self.now }
    {
        match port {
            Port::Master => match self.master.settings.read {
                Register::Irr => self.irr(),
                Register::Isr => self.isr(Side::Master),
            },
            Port::MasterData => self.master.settings.mask,
            Port::Slave => match self.slave.settings.read {
                Register::Irr => self.slave_irr(),
                Register::Isr => self.isr(Side::Slave),
            },
            Port::SlaveData => self.slave.settings.mask,
        }
    }

    // the master's IRR: bit 2 is whether the slave asks
    fn irr(&self) -> u8
        ensures { result ≡ irr_of side.Master self.now }
    {
        let requests = self.master.requests;
        with_cascade(requests, self.slave_asks())
    }

    // the slave's IRR
    fn slave_irr(&self) -> u8
        ensures { result ≡ irr_of side.Slave self.now }
    {
        let requests = self.slave.requests;
        requests
    }

    // a controller's ISR
    fn isr(&self, side: Side) -> u8
        ensures { result ≡ isr_of side self.now }
    {
        match side {
            Side::Master => {
                let marks = self.master.marks;
                marks
            }
            Side::Slave => {
                let marks = self.slave.marks;
                marks
            }
        }
    }

    /// Drives a line, of 0 to 15 without 2: a rise requests it, and a fall changes no request.
    pub fn line(&mut self, irq: u8, up: bool)
        requires line { irq < 16 }
        requires no_cascade { irq ≢ 2 }
        ensures state { self.new ≡ after_line irq up self.old }
    {
        if !up {
            self.fall(irq);
        } else if !self.is_up(irq) {
            self.rise(irq);
        }
    }

    // a line falls
    fn fall(&mut self, irq: u8)
        requires { irq < 16 }
        ensures { self.new ≡ fallen irq self.old }
    {
        if irq < 8 {
            self.master.lines = without_bit(self.master.lines, irq);
        } else {
            self.slave.lines = without_bit(self.slave.lines, irq - 8);
        }
    }

    // a line rises
    fn rise(&mut self, irq: u8)
        requires line { irq < 16 }
        requires no_cascade { irq ≢ 2 }
        ensures { self.new ≡ risen irq self.old }
    {
        if irq < 8 {
            self.master.lines = with_bit(self.master.lines, irq);
            self.master.requests = with_bit(self.master.requests, irq);
        } else {
            self.slave.lines = with_bit(self.slave.lines, irq - 8);
            self.slave.requests = with_bit(self.slave.requests, irq - 8);
        }
    }

    // whether a line is up
    fn is_up(&self, n: u8) -> bool
        requires { n < 16 }
        ensures { result ≡ has n self.now.lines }
    {
        has_line(self.master.lines, self.slave.lines, n)
    }

    // whether a line is requested
    fn is_requested(&self, n: u8) -> bool
        requires { n < 16 }
        ensures { result ≡ has n self.now.requests }
    {
        has_line(self.master.requests, self.slave.requests, n)
    }

    // whether a mark of the line's controller is at or below it
    fn is_held(&self, n: u8) -> bool
        requires { n < 16 }
        ensures { result ≡ is_held n self.now }
    {
        if n < 8 {
            has_up_to(self.master.marks, n)
        } else {
            has_up_to(self.slave.marks, n - 8)
        }
    }

    // whether the line's controller lets it through
    fn is_open(&self, n: u8) -> bool
        requires { n < 16 }
        ensures { result ≡ is_open n self.now }
    {
        !has_line(self.master.settings.mask, self.slave.settings.mask, n) && !self.is_held(n)
    }

    // whether the slave asks for its line
    fn is_asked(&self, n: u8) -> bool
        requires { n < 16 }
        ensures { result ≡ is_asked n self.now }
    {
        self.slave.settings.is_ready() && self.is_requested(n) && self.is_open(n)
    }

    // whether the slave asks for a line
    fn slave_asks(&self) -> bool
        ensures { result ≡ slave_asks self.now }
    {
        (8..16).any(|n| self.is_asked(n))
    }

    // whether a line is eligible
    fn is_eligible(&self, n: u8) -> bool
        requires { n < 16 }
        ensures { result ≡ is_eligible n self.now }
    {
        if !self.master.settings.is_ready() {
            return false;
        }
        if n < 8 {
            self.is_requested(n) && self.is_open(n)
        } else {
            self.is_asked(n) && self.is_open(2)
        }
    }

    // the first eligible line of a row
    fn first_in(&self, from: u8, to: u8) -> Option<u8>
        requires ordered { from ≤ to }
        requires below { to ≤ 16 }
        ensures found { result ≡ find (λ n. is_eligible n self.now) (range_with_len from (to - from)) }
    {
        (from..to).find(|n| self.is_eligible(*n))
    }

    // the first eligible line
    fn first(&self) -> Option<u8>
        ensures found { result ≡ first_eligible self.now }
        ensures exact { is_some result ≡ intr_of self.now }
        ensures below { IfSome result (λ n. n < 16) }
    {
        match self.first_in(0, 2) {
            Some(n) => Some(n),
            None => match self.first_in(8, 16) {
                Some(n) => Some(n),
                None => self.first_in(3, 8),
            },
        }
    }

    /// INTR: whether a line is eligible.
    pub fn intr(&self) -> bool
        ensures holds { result ≡ intr_of self.now }
        ensures kept { IsPair self.now }
    {
        let _ = &self.master;
        self.first().is_some()
    }

    /// An acknowledgement: the vector of the first eligible line, whose request goes and whose mark comes.
    /// None exactly where INTR doesn't hold, with no change.
    pub fn ack(&mut self) -> Option<u8>
        ensures answer { result ≡ ack_answer self.old }
        ensures exact { is_some result ≡ intr_of self.old }
        ensures state { self.new ≡ after_ack self.old }
    {
        let n = self.first()?;
        let vector = self.vector(n);
        self.acknowledge(n);
        Some(vector)
    }

    // a line's vector
    fn vector(&self, n: u8) -> u8
        requires { n < 16 }
        ensures { result ≡ vector_of n self.now }
    {
        if n < 8 {
            self.master.settings.base + n
        } else {
            self.slave.settings.base + (n - 8)
        }
    }

    // the line's request goes, and its mark comes, of a slave line mark 2 too
    fn acknowledge(&mut self, n: u8)
        requires { n < 16 }
        ensures { self.new ≡ acknowledged n self.old }
    {
        if n < 8 {
            self.master.requests = without_bit(self.master.requests, n);
            self.master.marks = with_bit(self.master.marks, n);
        } else {
            self.slave.requests = without_bit(self.slave.requests, n - 8);
            self.slave.marks = with_bit(self.slave.marks, n - 8);
            self.master.marks = with_bit(self.master.marks, 2);
        }
    }
}
