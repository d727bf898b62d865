//! Calls played on a pair with its wiring.

ghost use Rattle.std.specs.Prelude.{◌≡◌, ◌≢◌, ◌++◌, true, Some, IfSome, IfOk, OnOk};
ghost use Rattle.std.specs.List.{AllByRecursion};
ghost use Rattle.mpf_pair.specs.Pair.{value_at, intr_of};
ghost use Rattle.mpf_pic_lines.specs.Lines.{IsPlayable, port_number};
ghost use Rattle.mpf_pic.specs.declared.path.Path.TheVariants.{Closed};
ghost use Rattle.mpf_pic.specs.Wiring.{path_of};
ghost use Rattle.mpf_pic.specs.Play.{ack_of, after_ack_of, after_op, after_ops, answer_of, answers_of, ack_line, read_line, pic_text};

use crate::path::Path;
use crate::wiring::Wiring;
use mpf_pair::{Pair, Port};
use mpf_pic_lines::PicOp;
use mpt_base::NoMemory;
use mpt_listing::{Part, push_line};
use std::alloc::{AllocError, Global};

// a pair, and the wiring of its INTR
#[derive(Drop)]
pub(crate) struct WiredPair {
    pair: Pair,
    wiring: Wiring,
}

/// Plays the calls on a pair at power-on: the text of a line `in PP = HH` for each read, `ack HH PATH` or
/// `ack none` for each acknowledgement, and `end`. PATH is `direct`, `lint` or `io A P`. Each line that is
/// driven is one of 0 to 15 without 2, and each write of the interrupt mode register of port 22h or 23h.
pub fn play(alloc: Global, w: Wiring, ops: &[PicOp]) -> Result<Vec<u8>, NoMemory>
    requires playable { AllByRecursion IsPlayable ops.now }
    ensures text { IfOk result (λ t. t.items ≡ pic_text w ops.now) }
{
    let mut out = Vec::new(alloc);
    match push_play(&mut out, w, ops) {
        Ok(()) => Ok(out),
        Err(_) => Err(NoMemory),
    }
}

fn push_play(out: &mut Vec<u8>, w: Wiring, ops: &[PicOp]) -> Result<(), AllocError>
    requires { AllByRecursion IsPlayable ops.now }
    ensures { OnOk result (out.new.items ≡ out.old.items ++ pic_text w ops.now) }
{
    let mut play = WiredPair {
        pair: Pair::new(),
        wiring: w,
    };
    let Ok(()) = push_answers(out, &mut play, ops) else {
        return Err(AllocError);
    };
    push_line(out, &[Part::Text(b"end")])
}

// the answers of all calls
fn push_answers(out: &mut Vec<u8>, play: &mut WiredPair, ops: &[PicOp]) -> Result<(), AllocError>
    requires { AllByRecursion IsPlayable ops.now }
    ensures { OnOk result (out.new.items ≡ out.old.items ++ answers_of play.old ops.now) }
{
    match ops {
        [] => Ok(()),
        [op, rest @ ..] => {
            let Ok(()) = push_answer(out, play, *op) else {
                return Err(AllocError);
            };
            push_answers(out, play, rest)
        }
    }
}

// the answer of a call, if it has one
fn push_answer(out: &mut Vec<u8>, play: &mut WiredPair, op: PicOp) -> Result<(), AllocError>
    requires { IsPlayable op }
    ensures text { OnOk result (out.new.items ≡ out.old.items ++ answer_of op play.old) }
    ensures state { OnOk result (play.new ≡ after_op op play.old) }
{
    match op {
        PicOp::Get(port) => push_read(out, play, port),
        PicOp::Ack => push_ack(out, play),
        PicOp::Put(port, v) => {
            play.pair.put(port, v);
            Ok(())
        }
        PicOp::Imcr(port, v) => {
            play.wiring.write(port, v);
            Ok(())
        }
        PicOp::Up(n) => {
            play.pair.line(n, true);
            Ok(())
        }
        PicOp::Down(n) => {
            play.pair.line(n, false);
            Ok(())
        }
    }
}

// the number of a port
fn port_number(port: Port) -> u8
    ensures { result ≡ port_number port }
{
    match port {
        Port::Master => 0x20,
        Port::MasterData => 0x21,
        Port::Slave => 0xA0,
        Port::SlaveData => 0xA1,
    }
}

// the line of a read
fn push_read(out: &mut Vec<u8>, play: &WiredPair, port: Port) -> Result<(), AllocError>
    ensures { OnOk result (out.new.items ≡ out.old.items ++ read_line (port_number port) (value_at port play.now.pair)) }
{
    let value = play.pair.get(port);
    push_line(
        out,
        &[
            Part::Text(b"in "),
            Part::Hex(2, u64::from(port_number(port))),
            Part::Text(b" = "),
            Part::Hex(2, u64::from(value)),
        ],
    )
}

// an acknowledgement: on a closed way none, with no change
fn acknowledge(play: &mut WiredPair) -> Option<u8>
    ensures answer { result ≡ ack_of play.old }
    ensures state { play.new ≡ after_ack_of play.old }
    ensures open { IfSome result (λ _. path_of play.old.wiring ≢ Closed) }
    ensures intr { IfSome result (λ _. intr_of play.old.pair ≡ true) }
{
    match play.wiring.path() {
        Path::Closed => None,
        Path::Direct | Path::Lint | Path::Io { .. } => play.pair.ack(),
    }
}

// an acknowledgement and its line
fn push_ack(out: &mut Vec<u8>, play: &mut WiredPair) -> Result<(), AllocError>
    ensures text { OnOk result (out.new.items ≡ out.old.items ++ ack_line (ack_of play.old) (path_of play.old.wiring)) }
    ensures state { play.new ≡ after_ack_of play.old }
{
    let path = play.wiring.path();
    let vector = acknowledge(play);
    push_ack_line(out, vector, path)
}

// the line of an acknowledgement
fn push_ack_line(out: &mut Vec<u8>, vector: Option<u8>, path: Path) -> Result<(), AllocError>
    ensures { OnOk result (out.new.items ≡ out.old.items ++ ack_line vector path) }
{
    match vector {
        Some(v) => push_vector_line(out, v, path),
        None => push_line(out, &[Part::Text(b"ack none")]),
    }
}

fn push_vector_line(out: &mut Vec<u8>, v: u8, path: Path) -> Result<(), AllocError>
    ensures { OnOk result (out.new.items ≡ out.old.items ++ ack_line (Some v) path) }
{
    let number = Part::Hex(2, u64::from(v));
    match path {
        Path::Direct => push_line(out, &[Part::Text(b"ack "), number, Part::Text(b" direct")]),
        Path::Lint => push_line(out, &[Part::Text(b"ack "), number, Part::Text(b" lint")]),
        Path::Io { io, pin } => push_line(
            out,
            &[
                Part::Text(b"ack "),
                number,
                Part::Text(b" io "),
                Part::Decimal(u64::from(io)),
                Part::Text(b" "),
                Part::Decimal(u64::from(pin)),
            ],
        ),
        Path::Closed => push_line(out, &[Part::Text(b"ack none")]),
    }
}
