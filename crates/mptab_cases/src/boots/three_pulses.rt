//! A board whose three devices pulse one pin, its script and its report, worked out by hand.

use crate::boots::{Entry, Tables};

/// One processor, and an ISA source at INTIN 1 of one I/O APIC.
pub const ONE_PIN: Tables = Tables::Listed(
    &[Entry::Boot(0), Entry::Io(1)],
    b"bus id 00 name \"ISA   \"
ioint kind 00 flags 0000 bus 00 irq 01 dest 01 pin 01
",
);

/// Three devices that pulse that pin once each, and a processor that takes one interrupt and ends it.
pub const THREE_PULSES_SCRIPT: &[u8] = b"page = 0x9F
cpu = [{ id = 0, words = [\"take\", \"eoi\"] }]
device = [{ words = [\"pulse 0 1\"] }, { words = [\"pulse 0 1\"] }, { words = [\"pulse 0 1\"] }]
";

/// What three devices make of one pin, taken and ended.
pub const THREE_PULSES: &[u8] = b"mpboot 1
entries 15
0 cpu 00 iosel 0 13 : done
1 cpu 00 iowin 0 00000000 : plain
2 cpu 00 iosel 0 12 : done
3 cpu 00 iowin 0 00000021 : plain
4 dev 0 begin : done
5 dev 1 begin : done
6 dev 2 begin : done
7 io 0 collect 000002 : pins.000002.000000
8 dev 0 end : done
9 dev 1 end : done
10 dev 2 end : done
11 io 0 send 1 : 00=set
12 cpu 00 take : taken.21
13 io 0 sweep : done
14 cpu 00 eoi : ended.21.edge
log 0 : 0.1=new
log 1 : 0.1=merged
log 2 : 0.1=merged
state imcr none
state cpu 00 first tpr 00 irr - isr - tmr -
state io 0 line 000000 due 000000 remote 000000
end
";
