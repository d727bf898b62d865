//! How a controller is set by what is written to its ports (8259A datasheet, "Programming the 8259A").

ghost use Rattle.std.specs.Prelude.{◌≡◌};
ghost use Rattle.mpf_pair.specs.Pair.{unset, started, chosen, after_data, is_ready};

/// One of the two controllers.
#[derive(Clone, Copy)]
pub enum Side {
    /// The one of lines 0 to 7, whose output is INTR.
    Master,
    /// The one of lines 8 to 15, whose output is the master's line 2.
    Slave,
}

/// How far a controller's initialisation has come.
#[derive(Clone, Copy)]
pub enum Stage {
    /// Power-on: it isn't ready, and waits for no initialisation word.
    Off,
    /// The second word is next, and there is a fourth or not.
    Second(bool),
    /// The third word is next, and there is a fourth or not.
    Third(bool),
    /// The fourth word is next.
    Fourth,
    /// It is ready.
    Ready,
}

/// The register that a first port reads.
#[derive(Clone, Copy)]
pub enum Register {
    /// The requests.
    Irr,
    /// The marks in service.
    Isr,
}

/// How a controller is set.
#[derive(Clone, Copy)]
pub struct Settings {
    pub stage: Stage,
    /// The vector of its first line.
    pub base: u8,
    /// Bit n masks the line at place n.
    pub mask: u8,
    pub read: Register,
}

impl Settings {
    /// Power-on: not ready, base 0, mask 0, and IRR is read.
    pub fn new() -> Settings
        ensures { result ≡ unset }
    {
        Settings {
            stage: Stage::Off,
            base: 0,
            mask: 0,
            read: Register::Irr,
        }
    }

    /// The first initialisation word.
    pub fn start(&mut self, v: u8)
        ensures { self.new ≡ started v self.old }
    {
        self.stage = Stage::Second(v & 1 == 1);
        self.mask = 0;
        self.read = Register::Irr;
    }

    /// The third operation word.
    pub fn choose(&mut self, v: u8)
        ensures { self.new ≡ chosen v self.old }
    {
        if v >> 1 & 1 == 1 {
            self.read = if v & 1 == 1 {
                Register::Isr
            } else {
                Register::Irr
            };
        }
    }

    /// A write of the data port.
    pub fn write(&mut self, v: u8)
        ensures { self.new ≡ after_data v self.old }
    {
        match self.stage {
            Stage::Second(fourth) => {
                self.base = v / 8 * 8;
                self.stage = Stage::Third(fourth);
            }
            Stage::Third(true) => self.stage = Stage::Fourth,
            Stage::Third(false) | Stage::Fourth => self.stage = Stage::Ready,
            Stage::Off | Stage::Ready => self.mask = v,
        }
    }

    /// Whether the controller is ready.
    pub fn is_ready(&self) -> bool
        ensures { result ≡ is_ready self.now.stage }
    {
        matches!(self.stage, Stage::Ready)
    }
}
