//! Whole reports that were worked out by hand: processors that start or don't, an edge pin that three devices
//! pulse, a level pin that is sent again, messages to logical destinations and of lowest priority.

use crate::boots::three_pulses::{ONE_PIN, THREE_PULSES, THREE_PULSES_SCRIPT};
use crate::boots::{Entry, Row, Tables};

/// One processor, and a PCI source at INTIN 16 of one I/O APIC: level, low.
const LEVEL_PIN: Tables = Tables::Listed(
    &[Entry::Boot(0), Entry::Io(1)],
    b"bus id 00 name \"PCI   \"
ioint kind 00 flags 0000 bus 00 irq 00 dest 01 pin 10
",
);

/// Rows that each command answers with the same report, since one agent alone steps.
pub fn by_both() -> &'static [Row] {
    BY_BOTH
}

const BY_BOTH: &[Row] = &[
    Row {
        name: "two processors: the second is started",
        tables: Tables::Listed(&[Entry::Boot(0), Entry::Cpu(1)], b""),
        script: b"page = 0x9F\n",
        status: 0,
        text: b"mpboot 1
entries 7
0 cpu 00 init 01 : 01=waiting
1 cpu 00 pause 10000 : done
2 cpu 00 startup 01 9F : 01=started.9F
3 cpu 00 pause 200 : done
4 cpu 00 startup 01 9F : 01=ignored
5 cpu 00 pause 200 : done
6 cpu 00 check 01 : 01=runs.9F
state imcr none
state cpu 00 first tpr 00 irr - isr - tmr -
state cpu 01 started.9F tpr 00 irr - isr - tmr -
end
",
    },
    Row {
        name: "an older processor is started by the warm-reset vector, an absent one answers nothing",
        tables: Tables::Listed(
            &[Entry::Boot(0)],
            b"processor id 01 version 01 flags 01 signature 00000000 features 00000000 reserved 0000000000000000
processor id 02 version 10 flags 01 signature 00000000 features 00000000 reserved 0000000000000000
",
        ),
        script: b"page = 0x9F\npresent = [0, 1]\n",
        status: 0,
        text: b"mpboot 1
entries 11
0 cpu 00 warm 9F : done
1 cpu 00 init 01 : 01=started.9F
2 cpu 00 pause 10000 : done
3 cpu 00 check 01 : 01=runs.9F
4 cpu 00 init 02 : 02=absent
5 cpu 00 pause 10000 : done
6 cpu 00 startup 02 9F : 02=absent
7 cpu 00 pause 200 : done
8 cpu 00 startup 02 9F : 02=absent
9 cpu 00 pause 200 : done
10 cpu 00 check 02 : 02=absent
state imcr none
state cpu 00 first tpr 00 irr - isr - tmr -
state cpu 01 started.9F tpr 00 irr - isr - tmr -
end
",
    },
];

/// Rows of edge and level pins, whose report is that of the round robin.
pub fn by_turns() -> &'static [Row] {
    BY_TURNS
}

const BY_TURNS: &[Row] = &[
    Row {
        name: "three devices pulse one pin, which is sent once",
        tables: ONE_PIN,
        script: THREE_PULSES_SCRIPT,
        status: 0,
        text: THREE_PULSES,
    },
    Row {
        name: "the processor waits at a take without a vector",
        tables: ONE_PIN,
        script: b"page = 0x9F
cpu = [{ id = 0, words = [\"take\", \"eoi\", \"take\"] }]
device = [{ words = [\"pulse 0 1\"] }, { words = [\"pulse 0 1\"] }, { words = [\"pulse 0 1\"] }]
",
        status: 0,
        text: THREE_PULSES,
    },
    Row {
        name: "the version register is read, and the processor polls before the pin is sent",
        tables: ONE_PIN,
        script: b"page = 0x9F
cpu = [{ id = 0, words = [\"iosel 0 1\", \"ioread 0\", \"poll\"] }]
device = [{ words = [\"pulse 0 1\"] }, { words = [\"pulse 0 1\"] }, { words = [\"pulse 0 1\"] }]
",
        status: 0,
        text: b"mpboot 1
entries 16
0 cpu 00 iosel 0 13 : done
1 cpu 00 iowin 0 00000000 : plain
2 cpu 00 iosel 0 12 : done
3 cpu 00 iowin 0 00000021 : plain
4 dev 0 begin : done
5 dev 1 begin : done
6 dev 2 begin : done
7 cpu 00 iosel 0 01 : done
8 cpu 00 ioread 0 : read.00170011
9 io 0 collect 000002 : pins.000002.000000
10 dev 0 end : done
11 dev 1 end : done
12 dev 2 end : done
13 cpu 00 poll : nothing
14 io 0 send 1 : 00=set
15 io 0 sweep : done
log 0 : 0.1=new
log 1 : 0.1=merged
log 2 : 0.1=merged
state imcr none
state cpu 00 first tpr 00 irr 21 isr - tmr -
state io 0 line 000000 due 000000 remote 000000
end
",
    },
    Row {
        name: "a level pin that stays high is sent again after its end of interrupt",
        tables: LEVEL_PIN,
        script: b"page = 0x9F
cpu = [{ id = 0, words = [\"take\", \"eoi\"] }]
device = [{ words = [\"high 0 16\"] }]
",
        status: 0,
        text: b"mpboot 1
entries 12
0 cpu 00 iosel 0 31 : done
1 cpu 00 iowin 0 00000000 : plain
2 cpu 00 iosel 0 30 : done
3 cpu 00 iowin 0 0000A030 : plain
4 dev 0 begin : done
5 dev 0 high 0 16 : due
6 io 0 send 16 : 00=set
7 dev 0 end : done
8 cpu 00 take : taken.30
9 io 0 sweep : done
10 cpu 00 eoi : ended.30.level
11 io 0 send 16 : 00=set
log 0 : none
state imcr none
state cpu 00 first tpr 00 irr 30 isr - tmr 30
state io 0 line 010000 due 000000 remote 010000
end
",
    },
    Row {
        name: "a level pin that fell is sent once",
        tables: LEVEL_PIN,
        script: b"page = 0x9F
cpu = [{ id = 0, words = [\"take\", \"eoi\"] }]
device = [{ words = [\"high 0 16\", \"low 0 16\"] }]
",
        status: 0,
        text: b"mpboot 1
entries 12
0 cpu 00 iosel 0 31 : done
1 cpu 00 iowin 0 00000000 : plain
2 cpu 00 iosel 0 30 : done
3 cpu 00 iowin 0 0000A030 : plain
4 dev 0 begin : done
5 dev 0 high 0 16 : due
6 io 0 send 16 : 00=set
7 dev 0 low 0 16 : plain
8 cpu 00 take : taken.30
9 dev 0 end : done
10 cpu 00 eoi : ended.30.level
11 io 0 sweep : done
log 0 : none
state imcr none
state cpu 00 first tpr 00 irr - isr - tmr 30
state io 0 line 000000 due 000000 remote 000000
end
",
    },
];

/// Rows of messages to logical destinations and of lowest priority, whose report is that of the round robin.
pub fn by_turns_to_logical_ids() -> &'static [Row] {
    BY_TURNS_TO_LOGICAL_IDS
}

const BY_TURNS_TO_LOGICAL_IDS: &[Row] = &[
    Row {
        name: "a message to a logical destination in the flat model: its own bit, and another",
        tables: Tables::Listed(&[Entry::Boot(0), Entry::Cpu(1)], b""),
        script: b"page = 0x9F
cpu = [{ id = 0, words = [\"ldr 1\", \"ipl 1 0x40\", \"ipl 2 0x40\", \"take\"] }]
",
        status: 0,
        text: b"mpboot 1
entries 11
0 cpu 00 init 01 : 01=waiting
1 cpu 00 pause 10000 : done
2 cpu 00 startup 01 9F : 01=started.9F
3 cpu 00 pause 200 : done
4 cpu 00 startup 01 9F : 01=ignored
5 cpu 00 pause 200 : done
6 cpu 00 check 01 : 01=runs.9F
7 cpu 00 ldr 01 : done
8 cpu 00 ipl 01 40 : 00=set
9 cpu 00 ipl 02 40 : 02=absent
10 cpu 00 take : taken.40
state imcr none
state cpu 00 first tpr 00 irr - isr 40 tmr -
state cpu 01 started.9F tpr 00 irr - isr - tmr -
end
",
    },
    Row {
        name: "lowest priority goes to the processor of the least priority",
        tables: Tables::Listed(&[Entry::Boot(0), Entry::Cpu(1), Entry::Io(2)], b""),
        script: b"page = 0x9F
cpu = [{ id = 0, words = [\"tpr 32\", \"iosel 0 19\", \"iowin 0 0x0F000000\", \"iosel 0 18\", \"iowin 0 0x8121\"] }]
device = [{ words = [\"high 0 1\"] }]
",
        status: 0,
        text: b"mpboot 1
entries 17
0 cpu 00 init 01 : 01=waiting
1 cpu 00 pause 10000 : done
2 cpu 00 startup 01 9F : 01=started.9F
3 cpu 00 pause 200 : done
4 cpu 00 startup 01 9F : 01=ignored
5 cpu 00 pause 200 : done
6 cpu 00 check 01 : 01=runs.9F
7 dev 0 begin : done
8 cpu 00 tpr 20 : done
9 dev 0 high 0 1 : plain
10 cpu 00 iosel 0 13 : done
11 dev 0 end : done
12 cpu 00 iowin 0 0F000000 : plain
13 io 0 sweep : done
14 cpu 00 iosel 0 12 : done
15 cpu 00 iowin 0 00008121 : due
16 io 0 send 1 : 01=set
log 0 : none
state imcr none
state cpu 00 first tpr 20 irr - isr - tmr -
state cpu 01 started.9F tpr 00 irr 21 isr - tmr 21
state io 0 line 000002 due 000000 remote 000002
end
",
    },
    Row {
        name: "lowest priority goes to the least id where the priorities are the same",
        tables: Tables::Listed(&[Entry::Boot(0), Entry::Cpu(1), Entry::Io(2)], b""),
        script: b"page = 0x9F
cpu = [{ id = 0, words = [\"iosel 0 19\", \"iowin 0 0x0F000000\", \"iosel 0 18\", \"iowin 0 0x8121\"] }]
device = [{ words = [\"high 0 1\"] }]
",
        status: 0,
        text: b"mpboot 1
entries 16
0 cpu 00 init 01 : 01=waiting
1 cpu 00 pause 10000 : done
2 cpu 00 startup 01 9F : 01=started.9F
3 cpu 00 pause 200 : done
4 cpu 00 startup 01 9F : 01=ignored
5 cpu 00 pause 200 : done
6 cpu 00 check 01 : 01=runs.9F
7 dev 0 begin : done
8 cpu 00 iosel 0 13 : done
9 dev 0 high 0 1 : plain
10 cpu 00 iowin 0 0F000000 : plain
11 dev 0 end : done
12 cpu 00 iosel 0 12 : done
13 io 0 sweep : done
14 cpu 00 iowin 0 00008121 : due
15 io 0 send 1 : 00=set
log 0 : none
state imcr none
state cpu 00 first tpr 00 irr 21 isr - tmr 21
state cpu 01 started.9F tpr 00 irr - isr - tmr -
state io 0 line 000002 due 000000 remote 000002
end
",
    },
    Row {
        name: "a message to two processors of a cluster",
        tables: Tables::Listed(&[Entry::Boot(0), Entry::Cpu(1)], b""),
        script: b"page = 0x9F
cpu = [{ id = 0, words = [\"dfr 0\", \"ldr 0x11\", \"ipl 0x13 0x40\", \"ipl 0x23 0x40\"] }, { id = 1, words = [\"dfr 0\", \"ldr 0x12\"] }]
",
        status: 0,
        text: b"mpboot 1
entries 13
0 cpu 00 init 01 : 01=waiting
1 cpu 00 pause 10000 : done
2 cpu 00 startup 01 9F : 01=started.9F
3 cpu 01 dfr 00 : done
4 cpu 00 pause 200 : done
5 cpu 01 ldr 12 : done
6 cpu 00 startup 01 9F : 01=ignored
7 cpu 00 pause 200 : done
8 cpu 00 check 01 : 01=runs.9F
9 cpu 00 dfr 00 : done
10 cpu 00 ldr 11 : done
11 cpu 00 ipl 13 40 : 00=set 01=set
12 cpu 00 ipl 23 40 : 23=absent
state imcr none
state cpu 00 first tpr 00 irr 40 isr - tmr -
state cpu 01 started.9F tpr 00 irr 40 isr - tmr -
end
",
    },
];
