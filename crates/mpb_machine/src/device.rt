//! A device: its program, and how far it is.

ghost use Rattle.std.specs.Prelude.{◌≡◌, ◌<◌, Some, IfOk, suc, length, nat_le};
ghost use Rattle.mpb_spec.specs.Plan.{first_device, op_of_word};
ghost use Rattle.mpb_spec.specs.Steps.{op_of_device, unless_early};

use mpb_spec::{DevWord, Op};
use std::alloc::{AllocError, Global};
use std::marker::Model;

/// A device: its program, and how far it is.
#[derive(Drop)]
pub struct Dev {
    program: Vec<Op>,
    position: usize,
}

impl Model for Dev {
    ghost use Rattle.mpb_spec.specs.State.{Device};

    ghost Value = { Device };

    ghost view = { λ d. record { program = d.program.items; position = d.position } };
}

// the op of a word, none of a pulse
fn op_of_word(word: DevWord) -> Option<Op>
    ensures { result ≡ op_of_word word }
{
    match word {
        DevWord::Pulse(..) => None,
        DevWord::High(at, pin) => Some(Op::High(at, pin)),
        DevWord::Low(at, pin) => Some(Op::Low(at, pin)),
    }
}

// the op of a device, but that it begins only where the boot program is through
fn unless_early(through: bool, op: Op) -> Option<Op>
    ensures { result ≡ unless_early through (Some op) }
{
    match op {
        Op::Begin => if through { Some(Op::Begin) } else { None },
        _ => Some(op),
    }
}

impl Dev {
    /// A device at its start, with these words.
    pub fn new(alloc: Global, words: &[DevWord]) -> Result<Dev, AllocError>
        ensures { IfOk result (λ d. d ≡ first_device words.now) }
    {
        let mut program = Vec::new(alloc);
        let Ok(()) = program.push(Op::Begin) else {
            return Err(AllocError);
        };
        for word in words {
            if let Some(op) = op_of_word(*word) {
                let Ok(()) = program.push(op) else {
                    return Err(AllocError);
                };
            }
        }
        let Ok(()) = program.push(Op::End) else {
            return Err(AllocError);
        };
        Ok(Dev {
            program,
            position: 0,
        })
    }

    /// The op that it makes next, where it can; `through` says whether the boot program is through.
    pub fn next_op(&self, through: bool) -> Option<Op>
        ensures { result ≡ op_of_device through (Some self.now) }
    {
        match self.program.get(self.position) {
            Some(op) => unless_early(through, *op),
            None => None,
        }
    }

    /// Whether its program is at its end.
    pub fn is_done(&self) -> bool
        ensures { result ≡ nat_le (length self.now.program) self.now.position }
    {
        self.program.len() <= self.position
    }

    /// Its program is one op further. Condition: it isn't at its end.
    pub fn advance(&mut self)
        requires { self.old.position < length self.old.program }
        ensures { self.new ≡ record self.old { position = suc self.old.position } }
    {
        self.position += 1;
    }
}
