//! Routes as a text: one line for each I/O interrupt entry.

ghost use Rattle.std.specs.Prelude.{◌≡◌, ◌++◌, IfOk, OnOk};
ghost use Rattle.std.specs.List.{flat_map};
ghost use Rattle.mpt_answers.specs.RouteLines.{why_name, row_line, route_line, routes_text};

use mpt_base::NoMemory;
use mpt_listing::{Part, push_line};
use mpt_route::{Answer, Route, Why};
use std::alloc::{AllocError, Global};

/// The lines of the answers, in order. It takes memory for the text alone, and fails only where that
/// runs out.
pub fn print_routes(alloc: Global, answers: &[Answer]) -> Result<Vec<u8>, NoMemory>
    ensures { IfOk result (λ text. text.items ≡ routes_text answers.now) }
{
    let mut out = Vec::new(alloc);
    match push_answers(&mut out, answers) {
        Ok(()) => Ok(out),
        Err(_) => Err(NoMemory),
    }
}

fn push_answers(out: &mut Vec<u8>, answers: &[Answer]) -> Result<(), AllocError>
    ensures { OnOk result (out.new.items ≡ out.old.items ++ flat_map route_line answers.now) }
{
    for answer in answers {
        let Ok(()) = push_answer(out, answer) else {
            return Err(AllocError);
        };
    }
    Ok(())
}

fn push_answer(out: &mut Vec<u8>, answer: &Answer) -> Result<(), AllocError>
    ensures { OnOk result (out.new.items ≡ out.old.items ++ route_line answer.now) }
{
    match *answer {
        Answer::Routed(row) => push_row(out, row),
        Answer::Unrouted { entry, why } => push_line(
            out,
            &[
                Part::Text(b"unrouted "),
                Part::Decimal(entry as u64),
                Part::Text(b" "),
                Part::Text(why_name(why)),
            ],
        ),
    }
}

fn push_row(out: &mut Vec<u8>, row: Route) -> Result<(), AllocError>
    ensures { OnOk result (out.new.items ≡ out.old.items ++ row_line row) }
{
    push_line(
        out,
        &[
            Part::Text(b"route "),
            Part::Decimal(row.entry as u64),
            Part::Text(b" io "),
            Part::Decimal(row.io as u64),
            Part::Text(b" pin "),
            Part::Decimal(row.pin as u64),
            Part::Text(b" vector "),
            Part::Hex(2, row.vector as u64),
            Part::Text(b" low "),
            Part::Hex(8, row.low as u64),
            Part::Text(b" high "),
            Part::Hex(8, row.high as u64),
        ],
    )
}

fn why_name(why: Why) -> &'static [u8]
    ensures { result.now ≡ why_name why }
{
    match why {
        Why::DestWide => b"DestWide",
        Why::UnknownBus => b"UnknownBus",
        Why::UnknownIo => b"UnknownIo",
        Why::PinRange => b"PinRange",
        Why::UnknownKind => b"UnknownKind",
        Why::ReservedFlag => b"ReservedFlag",
        Why::Conforms => b"Conforms",
        Why::Clash => b"Clash",
        Why::Shared => b"Shared",
    }
}
