//! The interrupt part of a local APIC (Intel SDM volume 3, sections 10.8.3 to 10.8.5): vectors
//! requested (IRR), in service (ISR) and level-triggered (TMR), and the task priority (TPR); and its
//! logical destination (section 10.6.2.2).

ghost use Rattle.std.specs.Prelude.{◌≡◌, ◌⊎◌};
ghost use Rattle.mpb_spec.specs.LocalApic.{reset, ppr, next_vector, acceptance, accepted, taken, ended, after_end, matches, matches_flat, matches_cluster};
ghost use Rattle.mpb_spec.specs.Numbers.{has, greatest};

use mpb_bits::Rows;
use mpb_spec::{Accept, CLASS_SIZE, CLUSTER, FIRST_VECTOR, FLAT, TO_ALL};
use std::marker::Model;

/// A set of vectors: the numbers below 256, in four words.
type Vectors = Rows<4>;

/// A local APIC. Contracts see its three sets of vectors as strictly ascending lists.
#[derive(Drop)]
pub struct Lapic {
    irr: Vectors,
    isr: Vectors,
    tmr: Vectors,
    tpr: u8,
    ldr: u8,
    dfr: u8,
}

impl Model for Lapic {
    ghost use Rattle.mpb_spec.specs.LocalApic.{LocalApic};

    ghost Value = { LocalApic };

    ghost view = { λ a. record { irr = a.irr; isr = a.isr; tmr = a.tmr; tpr = a.tpr; ldr = a.ldr; dfr = a.dfr } };
}

impl Lapic {
    /// A local APIC after a reset: all sets are empty, the task priority is 0, and it has no logical
    /// destination in the flat model.
    pub fn new() -> Lapic
        ensures state { result ≡ reset }
    {
        Lapic {
            irr: Vectors::none(),
            isr: Vectors::none(),
            tmr: Vectors::none(),
            tpr: 0,
            ldr: 0,
            dfr: FLAT,
        }
    }

    /// Accepts a fixed interrupt: its vector is requested, and its TMR bit set for level and cleared
    /// for edge. `Illegal` below 16, with no change; `Merged` where it was requested already.
    pub fn accept(&mut self, vector: u8, level: bool) -> Accept
        ensures answer { result ≡ acceptance vector self.old }
        ensures state { self.new ≡ accepted vector level self.old }
    {
        if vector < FIRST_VECTOR {
            return Accept::Illegal;
        }
        if level {
            self.tmr.put(u32::from(vector));
        } else {
            self.tmr.take(u32::from(vector));
        }
        if self.irr.put(u32::from(vector)) {
            Accept::Set
        } else {
            Accept::Merged
        }
    }

    /// The processor priority: the task priority, or the class of the greatest vector in service
    /// times 16 where that class is above the task's. A class is a sixteenth of a vector.
    pub fn ppr(&self) -> u8
        ensures priority { result ≡ ppr self.now }
    {
        match top_of(&self.isr) {
            Some(top) if top / CLASS_SIZE > self.tpr / CLASS_SIZE => top / CLASS_SIZE * CLASS_SIZE,
            _ => self.tpr,
        }
    }

    /// The vector that `take` would take: the greatest that is requested, where its class is above
    /// the processor priority's. None exactly where there is none such.
    pub fn next(&self) -> Option<u8>
        ensures answer { result ≡ next_vector self.now }
    {
        match top_of(&self.irr) {
            Some(top) if top / CLASS_SIZE > self.ppr() / CLASS_SIZE => Some(top),
            _ => None,
        }
    }

    /// Takes the next vector from IRR into service; where there is none, nothing changes.
    pub fn take(&mut self) -> Option<u8>
        ensures answer { result ≡ next_vector self.old }
        ensures state { self.new ≡ taken self.old }
    {
        let vector = self.next()?;
        self.irr.take(u32::from(vector));
        self.isr.put(u32::from(vector));
        Some(vector)
    }

    /// Ends the service of the greatest vector in ISR: the vector, and whether it is level-triggered.
    /// None exactly where ISR is empty, with no change.
    pub fn eoi(&mut self) -> Option<(u8, bool)>
        ensures answer { result ≡ ended self.old }
        ensures state { self.new ≡ after_end self.old }
    {
        let vector = top_of(&self.isr)?;
        self.isr.take(u32::from(vector));
        Some((vector, self.tmr.has(u32::from(vector))))
    }

    /// Sets the task priority.
    pub fn set_tpr(&mut self, tpr: u8)
        ensures state { self.new ≡ record self.old { tpr = tpr } }
    {
        self.tpr = tpr;
    }

    /// The task priority.
    pub fn tpr(&self) -> u8
        ensures priority { result ≡ self.now.tpr }
    {
        self.tpr
    }

    /// Sets the logical destination: bits 31:24 of the LDR.
    pub fn set_ldr(&mut self, ldr: u8)
        ensures state { self.new ≡ record self.old { ldr = ldr } }
    {
        self.ldr = ldr;
    }

    /// The logical destination: bits 31:24 of the LDR.
    pub fn ldr(&self) -> u8
        ensures register { result ≡ self.now.ldr }
    {
        self.ldr
    }

    /// Sets the model of logical destinations, bits 31:28 of the DFR. Condition: it is 15, flat, or 0,
    /// cluster.
    pub fn set_dfr(&mut self, model: u8)
        requires model { (model ≡ 0) ⊎ (model ≡ 15) }
        ensures state { self.new ≡ record self.old { dfr = model } }
    {
        self.dfr = model;
    }

    /// The model of logical destinations, bits 31:28 of the DFR.
    pub fn dfr(&self) -> u8
        ensures register { result ≡ self.now.dfr }
    {
        self.dfr
    }

    /// Whether a logical destination is its own: 255 is everyone's; in the flat model where some bit is
    /// set in both, and in the cluster model where bits 7:4 of both are equal and some bit of 3:0 is set
    /// in both.
    pub fn matches(&self, dest: u8) -> bool
        ensures exact { result ≡ matches dest self.now }
    {
        dest == TO_ALL || self.matches_flat(dest) || self.matches_cluster(dest)
    }

    // in the flat model
    fn matches_flat(&self, dest: u8) -> bool
        ensures { result ≡ matches_flat dest self.now }
    {
        self.dfr == FLAT && dest & self.ldr != 0
    }

    // in the cluster model
    fn matches_cluster(&self, dest: u8) -> bool
        ensures { result ≡ matches_cluster dest self.now }
    {
        self.dfr == CLUSTER && dest / 16 == self.ldr / 16 && (dest % 16) & (self.ldr % 16) != 0
    }

    /// Whether the vector is requested.
    pub fn irr(&self, v: u8) -> bool
        ensures member { result ≡ has v self.now.irr }
    {
        self.irr.has(u32::from(v))
    }

    /// Whether the vector is in service.
    pub fn isr(&self, v: u8) -> bool
        ensures member { result ≡ has v self.now.isr }
    {
        self.isr.has(u32::from(v))
    }

    /// Whether the vector's last interrupt was level-triggered.
    pub fn tmr(&self, v: u8) -> bool
        ensures member { result ≡ has v self.now.tmr }
    {
        self.tmr.has(u32::from(v))
    }
}

// the greatest vector of a set
fn top_of(vectors: &Vectors) -> Option<u8>
    ensures { result ≡ greatest vectors.now }
{
    let top = vectors.top()?;
    Some(top as u8)
}
