//! Whole reports.

use crate::boards::second_io_apic;
use crate::harness::{is_quiet, opened};
use crate::stepped::{account_of, has_report, silent_account, steps};
use mpb_board::{Agent, Offer};
use mpb_cases::{three_pulses, two_processors};
use mpb_spec::{Account, Hit};
use std::alloc::{AllocError, Global};

const BOOT: (Agent, Offer) = (Agent::Cpu(0), Offer::Next);

const TWO_PROCESSORS: &[u8] = b"mpboot 1
entries 7
0 cpu 00 init 01 : 01=waiting
1 cpu 00 pause 10000 : done
2 cpu 00 startup 01 9F : 01=started.9F
3 cpu 00 pause 200 : done
4 cpu 00 startup 01 9F : 01=ignored
5 cpu 00 pause 200 : done
6 cpu 00 check 01 : 01=runs.9F
state imcr none
state cpu 00 first tpr 00 irr - isr - tmr -
state cpu 01 started.9F tpr 00 irr - isr - tmr -
end
";

#[test]
fn two_processors_start(rt: HostRuntime) {
    let alloc = rt.alloc();
    let mut board = opened(&rt, alloc, two_processors(alloc, &[]));
    steps(&rt, &mut board, &[BOOT; 7]);
    is_quiet(&rt, &board, true);
    has_report(&rt, alloc, &board, account_of(alloc, &[]), TWO_PROCESSORS);
}

// the turns of three devices that pulse one pin
fn pulse_turns() -> &'static [(Agent, Offer)] {
    &[
        BOOT,
        BOOT,
        BOOT,
        BOOT,
        (Agent::Dev(0), Offer::Next),
        (Agent::Dev(1), Offer::Next),
        (Agent::Dev(2), Offer::Next),
        (Agent::Io(0), Offer::Collect(2)),
        (Agent::Dev(0), Offer::Next),
        (Agent::Dev(1), Offer::Next),
        (Agent::Dev(2), Offer::Next),
        (Agent::Io(0), Offer::Next),
        BOOT,
        (Agent::Io(0), Offer::Sweep),
        BOOT,
    ]
}

const THREE_DEVICES: &[u8] = b"mpboot 1
entries 15
0 cpu 00 iosel 0 13 : done
1 cpu 00 iowin 0 00000000 : plain
2 cpu 00 iosel 0 12 : done
3 cpu 00 iowin 0 00000021 : plain
4 dev 0 begin : done
5 dev 1 begin : done
6 dev 2 begin : done
7 io 0 collect 000002 : pins.000002.000000
8 dev 0 end : done
9 dev 1 end : done
10 dev 2 end : done
11 io 0 send 1 : 00=set
12 cpu 00 take : taken.21
13 io 0 sweep : done
14 cpu 00 eoi : ended.21.edge
log 0 : 0.1=new
log 1 : 0.1=merged
log 2 : 0.1=merged
state imcr none
state cpu 00 first tpr 00 irr - isr - tmr -
state io 0 line 000000 due 000000 remote 000000
end
";

// the account of their pulses
fn pulse_account(alloc: Global) -> Result<Account, AllocError> {
    account_of(alloc, &[(1, Hit::New), (1, Hit::Merged), (1, Hit::Merged)])
}

#[test]
fn three_devices_pulse_one_pin(rt: HostRuntime) {
    let alloc = rt.alloc();
    let mut board = opened(&rt, alloc, three_pulses(alloc));
    steps(&rt, &mut board, pulse_turns());
    is_quiet(&rt, &board, true);
    has_report(&rt, alloc, &board, pulse_account(alloc), THREE_DEVICES);
}

// the turns of a device that raises a line, and of the boot processor, 2, around them
fn level_turns() -> &'static [(Agent, Offer)] {
    &[
        (Agent::Cpu(2), Offer::Next),
        (Agent::Cpu(2), Offer::Next),
        (Agent::Cpu(2), Offer::Next),
        (Agent::Cpu(2), Offer::Next),
        (Agent::Dev(0), Offer::Next),
        (Agent::Dev(0), Offer::Next),
        (Agent::Io(1), Offer::Next),
        (Agent::Cpu(2), Offer::Next),
        (Agent::Cpu(2), Offer::Next),
        (Agent::Cpu(2), Offer::Next),
        (Agent::Cpu(2), Offer::Next),
    ]
}

const REGISTERS: &[u8] = b"mpboot 1
entries 11
0 cpu 02 iosel 1 31 : done
1 cpu 02 iowin 1 02000000 : plain
2 cpu 02 iosel 1 30 : done
3 cpu 02 iowin 1 0000A030 : plain
4 dev 0 begin : done
5 dev 0 high 1 16 : due
6 io 1 send 16 : 02=set
7 cpu 02 ipi 02 41 : 02=set
8 cpu 02 ipi 02 52 : 02=set
9 cpu 02 tpr 2C : done
10 cpu 02 take : taken.52
log 0 : none
state imcr pic
state cpu 02 first tpr 2C irr 30,41 isr 52 tmr 30
state cpu 05 asleep tpr 00 irr - isr - tmr -
state io 0 line 000000 due 000000 remote 000000
state io 1 line 010000 due 000000 remote 010000
end
";

#[test]
fn registers_that_hold_something(rt: HostRuntime) {
    let alloc = rt.alloc();
    let mut board = opened(&rt, alloc, second_io_apic(alloc));
    steps(&rt, &mut board, level_turns());
    has_report(&rt, alloc, &board, silent_account(alloc), REGISTERS);
}
