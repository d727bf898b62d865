//! Boards of which one agent alone may step, at any time: by threads they have one report, that of the
//! round robin. The texts were worked out by hand.

ghost use Rattle.std.specs.Prelude.{◌<◌, ◌^◌, IfSome};
ghost use Rattle.mpb_spec.specs.Plan.{plan_size};

use crate::harness::{ran, same};
use mpb_board::Config;
use mpb_cases::{one_absent, two_processors};
use mpb_crew::NoGate;
use mpb_report::report_text;
use mpb_run::Ran;
use std::alloc::Global;
use std::process::Abort;
use std::sync::Wait;
use std::test::Fail;
use std::thread::Threads;

const TWO_PROCESSORS: &str = "mpboot 1
entries 7
0 cpu 00 init 01 : 01=waiting
1 cpu 00 pause 10000 : done
2 cpu 00 startup 01 9F : 01=started.9F
3 cpu 00 pause 200 : done
4 cpu 00 startup 01 9F : 01=ignored
5 cpu 00 pause 200 : done
6 cpu 00 check 01 : 01=runs.9F
state imcr none
state cpu 00 first tpr 00 irr - isr - tmr -
state cpu 01 started.9F tpr 00 irr - isr - tmr -
end
";

const ONE_ABSENT: &str = "mpboot 1
entries 11
0 cpu 00 warm 9F : done
1 cpu 00 init 01 : 01=started.9F
2 cpu 00 pause 10000 : done
3 cpu 00 check 01 : 01=runs.9F
4 cpu 00 init 02 : 02=absent
5 cpu 00 pause 10000 : done
6 cpu 00 startup 02 9F : 02=absent
7 cpu 00 pause 200 : done
8 cpu 00 startup 02 9F : 02=absent
9 cpu 00 pause 200 : done
10 cpu 00 check 02 : 02=absent
state imcr none
state cpu 00 first tpr 00 irr - isr - tmr -
state cpu 01 started.9F tpr 00 irr - isr - tmr -
end
";

/// The report of a board's run by threads.
fn report<R: Threads + Wait + Sync>(
    rt: &R,
    alloc: Global,
    config: Option<Config>,
) -> Result<Vec<u8>, Fail>
    requires { IfSome config (λ c. plan_size c < 2 ^ 32) }
{
    let ran = ran(rt, alloc, config, &NoGate)?;
    report_of(alloc, &ran)
}

/// The report of a run.
fn report_of(alloc: Global, ran: &Ran) -> Result<Vec<u8>, Fail> {
    Ok(report_text(alloc, &ran.board, &ran.account)?)
}

/// Asserts that a report is this text.
fn is_text(rt: &impl Abort, name: &str, report: &[u8], want: &str) {
    same(rt, name, str::from_utf8(report).unwrap_or(""), want);
}

#[test]
fn two_processors_by_threads(rt: HostRuntime) -> Result<(), Fail> {
    let text = report(&rt, rt.alloc(), two_processors(rt.alloc(), &[])?)?;
    is_text(&rt, "two processors", text.as_slice(), TWO_PROCESSORS);
    Ok(())
}

#[test]
fn one_absent_by_threads(rt: HostRuntime) -> Result<(), Fail> {
    let text = report(&rt, rt.alloc(), one_absent(rt.alloc(), false)?)?;
    is_text(&rt, "one absent", text.as_slice(), ONE_ABSENT);
    Ok(())
}
