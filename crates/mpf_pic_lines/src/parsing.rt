//! A text read back.

ghost use Rattle.std.specs.Prelude.{◌≡◌, ◌<◌, ◌^◌, ℕ, List, IfOk, IfErr, MatchResult, length};
ghost use Rattle.std.specs.List.{AllByRecursion};
ghost use Rattle.mpf_pic_lines.specs.declared.op.PicOp.{PicOp as Op};
ghost use Rattle.mpf_pic_lines.specs.Lines.{IsPlayable, IsTextOf, IsCauseOf, IsFirstBadLine, IsNoMemory, IsThisLine};

use crate::lines::read_op_line;
use crate::op::{PicFault, PicOp};
use std::alloc::Global;

/// The calls of a text, or the first of its lines, from 1, that is none of `out PP VV`, `in PP`,
/// `irq N up`, `irq N down` and `ack` with its line feed. PP and VV have two upper case hexadecimal
/// digits; PP is one of 20, 21, A0 and A1, for `out` 22 and 23 too; N is decimal, 0 to 15 without 2. The
/// text has fewer than 2^32 bytes.
///
/// # Errors
///
/// That line, or want of memory for the calls.
pub fn parse_pic(alloc: Global, text: &[u8]) -> Result<Vec<PicOp>, PicFault>
    requires size { length text.now < 2 ^ 32 }
    ensures ops { IfOk result (λ v. IsTextOf v.items text.now) }
    ensures playable { IfOk result (λ v. AllByRecursion IsPlayable v.items) }
    ensures fault { IfErr result (IsCauseOf text.now) }
    ensures only_ops { (ops : List Op) → IsTextOf ops text.now → MatchResult result (λ v. v.items ≡ ops) IsNoMemory }
    ensures only_line { (n : ℕ) → IsFirstBadLine text.now n → MatchResult result (λ _. ⊥) (IsThisLine n) }
{
    read_ops(alloc, text)
}

// the calls of a text, or its first bad line
fn read_ops(alloc: Global, text: &[u8]) -> Result<Vec<PicOp>, PicFault>
    requires { length text.now < 2 ^ 32 }
    ensures ops { IfOk result (λ v. IsTextOf v.items text.now) }
    ensures fault { IfErr result (IsCauseOf text.now) }
{
    let mut ops = Vec::new(alloc);
    let mut rest = text;
    while !rest.is_empty() {
        let Some((op, after)) = read_op_line(rest) else {
            return Err(PicFault::Line {
                line: ops.len() as u32 + 1,
            });
        };
        let Ok(()) = ops.push(op) else {
            return Err(PicFault::NoMemory);
        };
        rest = after;
    }
    Ok(ops)
}
