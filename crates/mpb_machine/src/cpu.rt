//! A processor: its program, whether it runs, and its local APIC. INIT and STARTUP are those of Intel SDM
//! volume 3, section 8.4; the start of old processors by the warm-reset vector is that of MultiProcessor
//! Specification 1.4, appendix B.4.

ghost use Rattle.std.specs.Prelude.{◌≡◌, ◌⊎◌, ◌<◌, Some, None, IfOk, slice_get, suc, length};
ghost use Rattle.mpb_spec.specs.Plan.{first_processor};
ghost use Rattle.mpb_spec.specs.State.{Processor, runs, is_through};
ghost use Rattle.mpb_spec.specs.Delivery.{received, answer, is_named, is_ready, life_after_init, init_outcome, life_after_startup, startup_outcome, outcome_of_accept};
ghost use Rattle.mpb_spec.specs.Steps.{op_of_processor, unless_waiting, with_apic};
ghost use Rattle.mpb_spec.specs.LocalApic.{taken, next_vector, ended, after_end};
ghost use Rattle.mpb_spec.specs.Ranks.{rank_of, is_chosen};

use mpb_lapic::Lapic;
use mpb_spec::{Accept, CpuConfig, Delivery, Destination, Life, Op, STARTUP_VERSION, What};
use std::alloc::{AllocError, Global};
use std::marker::Model;

/// A processor: its program and how far it is, its life, and its local APIC.
#[derive(Drop)]
pub struct Cpu {
    id: u8,
    version: u8,
    program: Vec<Op>,
    position: usize,
    life: Life,
    apic: Lapic,
}

impl Model for Cpu {
    ghost use Rattle.mpb_spec.specs.State.{Processor};

    ghost Value = { Processor };

    ghost view = { λ c. record { id = c.id; version = c.version; program = c.program.items; position = c.position; life = c.life; apic = c.apic } };
}

// whether it runs: as the boot processor, or started
fn runs(life: Life) -> bool
    ensures { result ≡ runs life }
{
    matches!(life, Life::First | Life::Started(_))
}

// what became of a fixed interrupt, as an outcome
fn outcome_of(accept: Accept) -> What
    ensures { result ≡ outcome_of_accept accept }
{
    match accept {
        Accept::Set => What::Set,
        Accept::Merged => What::Merged,
        Accept::Illegal => What::Illegal,
    }
}

// a life after INIT, and its outcome: version 10h and above waits for a STARTUP, an older one restarts
fn init(warm: Option<u8>, version: u8, life: Life) -> (Life, What)
    ensures life { result.0 ≡ life_after_init warm version life }
    ensures outcome { result.1 ≡ init_outcome warm version life }
{
    match life {
        Life::Asleep if version >= STARTUP_VERSION => (Life::Waiting, What::Waiting),
        Life::Asleep => match warm {
            Some(page) => (Life::Started(page), What::Started(page)),
            None => (life, What::Ignored),
        },
        Life::Waiting if version >= STARTUP_VERSION => (life, What::Waiting),
        _ => (life, What::Ignored),
    }
}

// a life after STARTUP, and its outcome: only a processor that waits starts
fn startup(page: u8, life: Life) -> (Life, What)
    ensures life { result.0 ≡ life_after_startup page life }
    ensures outcome { result.1 ≡ startup_outcome page life }
{
    match life {
        Life::Waiting => (Life::Started(page), What::Started(page)),
        _ => (life, What::Ignored),
    }
}

// the op of a processor, but that it waits at a `Take` until its local APIC has a vector
fn unless_waiting(apic: &Lapic, op: Op) -> Option<Op>
    ensures { result ≡ unless_waiting apic.now (Some op) }
{
    match op {
        Op::Take => match apic.next() {
            Some(_) => Some(Op::Take),
            None => None,
        },
        _ => Some(op),
    }
}

impl Cpu {
    /// A processor at its start; `boot` is the id of the boot processor.
    pub fn new(alloc: Global, config: &CpuConfig, boot: u8) -> Result<Cpu, AllocError>
        ensures { IfOk result (λ p. p ≡ first_processor boot config.now) }
    {
        let Ok(program) = Vec::from_slice(alloc, config.program.as_slice()) else {
            return Err(AllocError);
        };
        let life = if config.id == boot {
            Life::First
        } else {
            Life::Asleep
        };
        Ok(Cpu {
            id: config.id,
            version: config.version,
            program,
            position: 0,
            life,
            apic: Lapic::new(),
        })
    }

    /// The id of its local APIC.
    pub fn id(&self) -> u8
        ensures { result ≡ self.now.id }
    {
        self.id
    }

    // whether a destination names it
    fn is_named(&self, to: Destination) -> bool
        ensures { result ≡ is_named to self.now }
    {
        match to {
            Destination::Physical(dest, all) => dest == all || self.id == dest,
            Destination::Logical(dest) => self.apic.matches(dest),
        }
    }

    /// Whether a destination names it, and it runs.
    pub fn is_ready(&self, to: Destination) -> bool
        ensures { result ≡ is_ready to self.now }
    {
        self.is_named(to) && runs(self.life)
    }

    /// Its rank among the targets of a message of lowest priority: its priority, then its id.
    pub fn rank(&self) -> (u8, u8)
        ensures { result ≡ rank_of self.now }
    {
        (self.apic.ppr(), self.id)
    }

    /// Whether it is a target of a message to the destination, where the processor of this rank is sought.
    pub fn is_chosen(&self, to: Destination, rank: Option<(u8, u8)>) -> bool
        ensures { result ≡ is_chosen to rank self.now }
    {
        match rank {
            Some((priority, id)) => {
                self.is_ready(to) && priority == self.apic.ppr() && id == self.id
            }
            None => self.is_named(to),
        }
    }

    /// Takes a message, and answers what came of it; `warm` is the page of the warm-reset vector, where it is set.
    pub fn receive(&mut self, warm: Option<u8>, delivery: Delivery) -> What
        ensures state { self.new ≡ received warm delivery self.old }
        ensures outcome { result ≡ answer warm delivery self.old }
    {
        let awake = runs(self.life);
        match delivery {
            Delivery::Fixed(vector, level) => {
                if awake {
                    outcome_of(self.apic.accept(vector, level))
                } else {
                    What::Asleep
                }
            }
            Delivery::Nmi => if awake { What::Nmi } else { What::Asleep },
            Delivery::Pass => if awake { What::Passed } else { What::Asleep },
            Delivery::Init => {
                let (life, outcome) = init(warm, self.version, self.life);
                self.life = life;
                outcome
            }
            Delivery::Startup(page) => {
                let (life, outcome) = startup(page, self.life);
                self.life = life;
                outcome
            }
        }
    }

    /// The op that it makes next: none where it doesn't run, its program is at its end, or it waits at a `Take`.
    pub fn next_op(&self) -> Option<Op>
        ensures { result ≡ op_of_processor (Some self.now) }
    {
        if !runs(self.life) {
            return None;
        }
        match self.program.get(self.position) {
            Some(op) => unless_waiting(&self.apic, *op),
            None => None,
        }
    }

    /// Takes the next vector of its local APIC.
    pub fn take(&mut self) -> Option<u8>
        ensures state { self.new ≡ with_apic taken self.old }
        ensures outcome { result ≡ next_vector self.old.apic }
    {
        self.apic.take()
    }

    /// Ends the interrupt that its local APIC has in service.
    pub fn eoi(&mut self) -> Option<(u8, bool)>
        ensures state { self.new ≡ with_apic after_end self.old }
        ensures outcome { result ≡ ended self.old.apic }
    {
        self.apic.eoi()
    }

    /// Sets the task priority of its local APIC.
    pub fn set_tpr(&mut self, tpr: u8)
        ensures { self.new ≡ with_apic (λ a. record a { tpr = tpr }) self.old }
    {
        self.apic.set_tpr(tpr);
    }

    /// Sets the logical destination of its local APIC.
    pub fn set_ldr(&mut self, ldr: u8)
        ensures { self.new ≡ with_apic (λ a. record a { ldr = ldr }) self.old }
    {
        self.apic.set_ldr(ldr);
    }

    /// Sets the model of its logical destinations.
    pub fn set_dfr(&mut self, model: u8)
        requires { (model ≡ 0) ⊎ (model ≡ 15) }
        ensures { self.new ≡ with_apic (λ a. record a { dfr = model }) self.old }
    {
        self.apic.set_dfr(model);
    }

    /// Its program is one op further. Condition: it isn't at its end.
    pub fn advance(&mut self)
        requires { self.old.position < length self.old.program }
        ensures { self.new ≡ record self.old { position = suc self.old.position } }
    {
        self.position += 1;
    }

    /// Its life.
    pub fn life(&self) -> Life
        ensures { result ≡ self.now.life }
    {
        self.life
    }

    /// Its local APIC.
    pub fn lapic(&self) -> &Lapic
        ensures { result.now ≡ self.now.apic }
    {
        &self.apic
    }

    /// Whether it has made its first `count` ops.
    pub fn has_made(&self, count: u32) -> bool
        ensures { result ≡ is_through (Some self.now) count }
    {
        count as usize <= self.position
    }
}
