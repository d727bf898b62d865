//! One line at a time: right ones and faulty ones in the place of a report's own.

use crate::reading::{Answer, Row, same_answers};
use crate::whole::three_devices_text;

const WHOLE: Answer = Answer::Report(15, 3, 1, 1);

const WHOLE_BUT_ONE: Answer = Answer::Report(15, 3, 1, 0);

const ENTRIES: &[Row] = &[
    Row {
        name: "the greatest pause",
        number: 3,
        line: b"0 cpu FF pause 4294967295 : done\n",
        answer: WHOLE,
    },
    Row {
        name: "a pause too long",
        number: 3,
        line: b"0 cpu 00 pause 4294967296 : done\n",
        answer: Answer::Form(3),
    },
    Row {
        name: "the last pin",
        number: 3,
        line: b"0 dev 3 high 3 23 : done\n",
        answer: WHOLE,
    },
    Row {
        name: "a pin too high",
        number: 3,
        line: b"0 dev 3 high 3 24 : done\n",
        answer: Answer::Form(3),
    },
    Row {
        name: "a place too high",
        number: 3,
        line: b"0 io 4 send 1 : done\n",
        answer: Answer::Form(3),
    },
    Row {
        name: "an entry of another number",
        number: 4,
        line: b"2 cpu 00 take : nothing\n",
        answer: Answer::Form(4),
    },
    Row {
        name: "eight outcomes",
        number: 3,
        line: b"0 cpu 00 ipi FF 21 : 00=set 01=merged 02=illegal 03=asleep 04=absent 05=waiting 06=ignored 07=runs.first\n",
        answer: WHOLE,
    },
    Row {
        name: "nine outcomes",
        number: 3,
        line: b"0 cpu 00 nmi FF : 00=nmi 01=nmi 02=nmi 03=nmi 04=nmi 05=nmi 06=nmi 07=nmi 08=nmi\n",
        answer: Answer::Form(3),
    },
    Row {
        name: "no outcome",
        number: 3,
        line: b"0 cpu 00 take :\n",
        answer: Answer::Form(3),
    },
    Row {
        name: "a target where there is none",
        number: 3,
        line: b"0 cpu 00 take : 00=done\n",
        answer: Answer::Form(3),
    },
    Row {
        name: "a lower case digit",
        number: 3,
        line: b"0 cpu 0a take : done\n",
        answer: Answer::Form(3),
    },
    Row {
        name: "one entry fewer",
        number: 17,
        line: b"",
        answer: Answer::Form(17),
    },
];

// every op as it is written, and near misses
const OPS: &[Row] = &[
    Row {
        name: "imcr",
        number: 3,
        line: b"0 cpu 00 imcr : done\n",
        answer: WHOLE,
    },
    Row {
        name: "warm",
        number: 3,
        line: b"0 cpu 00 warm 9F : done\n",
        answer: WHOLE,
    },
    Row {
        name: "init",
        number: 3,
        line: b"0 cpu 00 init 01 : 01=waiting\n",
        answer: WHOLE,
    },
    Row {
        name: "startup",
        number: 3,
        line: b"0 cpu 00 startup 01 9F : 01=started.9F\n",
        answer: WHOLE,
    },
    Row {
        name: "check",
        number: 3,
        line: b"0 cpu 00 check 01 : 01=runs.9F\n",
        answer: WHOLE,
    },
    Row {
        name: "ipl",
        number: 3,
        line: b"0 cpu 00 ipl 13 40 : 00=set\n",
        answer: WHOLE,
    },
    Row {
        name: "the end of a level interrupt",
        number: 3,
        line: b"0 cpu 00 eoi : ended.21.level\n",
        answer: WHOLE,
    },
    Row {
        name: "tpr",
        number: 3,
        line: b"0 cpu 00 tpr 20 : done\n",
        answer: WHOLE,
    },
    Row {
        name: "ldr",
        number: 3,
        line: b"0 cpu 00 ldr 80 : done\n",
        answer: WHOLE,
    },
    Row {
        name: "the flat model",
        number: 3,
        line: b"0 cpu 00 dfr 0F : done\n",
        answer: WHOLE,
    },
    Row {
        name: "the cluster model",
        number: 3,
        line: b"0 cpu 00 dfr 00 : done\n",
        answer: WHOLE,
    },
    Row {
        name: "no other model",
        number: 3,
        line: b"0 cpu 00 dfr 07 : done\n",
        answer: Answer::Form(3),
    },
    Row {
        name: "a destination too long",
        number: 3,
        line: b"0 cpu 00 ldr 080 : done\n",
        answer: Answer::Form(3),
    },
    Row {
        name: "ioread",
        number: 3,
        line: b"0 cpu 00 ioread 3 : read.00170011\n",
        answer: WHOLE,
    },
    Row {
        name: "low",
        number: 3,
        line: b"0 dev 3 low 0 0 : withdrawn\n",
        answer: WHOLE,
    },
    Row {
        name: "send",
        number: 3,
        line: b"0 io 3 send 23 : unheard\n",
        answer: WHOLE,
    },
    Row {
        name: "a leading zero",
        number: 3,
        line: b"0 io 3 send 01 : unheard\n",
        answer: Answer::Form(3),
    },
    Row {
        name: "six digits of pins",
        number: 3,
        line: b"0 io 3 collect FFFFFF : pins.FFFFFE.000001\n",
        answer: WHOLE,
    },
    Row {
        name: "seven",
        number: 3,
        line: b"0 io 3 collect 1000000 : pins.000000.000000\n",
        answer: Answer::Form(3),
    },
    Row {
        name: "an unknown op",
        number: 3,
        line: b"0 cpu 00 halt : done\n",
        answer: Answer::Form(3),
    },
    Row {
        name: "no space before the colon",
        number: 3,
        line: b"0 cpu 00 take: nothing\n",
        answer: Answer::Form(3),
    },
    Row {
        name: "a space at the end",
        number: 3,
        line: b"0 cpu 00 take : nothing \n",
        answer: Answer::Form(3),
    },
    Row {
        name: "a carriage return",
        number: 3,
        line: b"0 cpu 00 take : nothing\r\n",
        answer: Answer::Form(3),
    },
    Row {
        name: "a zero byte",
        number: 3,
        line: b"0 cpu 00 take : nothing\0\n",
        answer: Answer::Form(3),
    },
];

const STATES: &[Row] = &[
    Row {
        name: "a log without pulses",
        number: 18,
        line: b"log 0 : none\n",
        answer: WHOLE,
    },
    Row {
        name: "two pulses",
        number: 18,
        line: b"log 0 : 3.23=new 0.0=merged\n",
        answer: WHOLE,
    },
    Row {
        name: "a log of another number",
        number: 19,
        line: b"log 2 : none\n",
        answer: Answer::Form(19),
    },
    Row {
        name: "a fifth log",
        number: 20,
        line: b"log 2 : none\nlog 3 : none\nlog 4 : none\n",
        answer: Answer::Form(22),
    },
    Row {
        name: "vectors that ascend",
        number: 22,
        line: b"state cpu 07 waiting tpr 20 irr 10,21,FF isr - tmr 21\n",
        answer: WHOLE,
    },
    Row {
        name: "a vector twice",
        number: 22,
        line: b"state cpu 07 waiting tpr 20 irr 21,21 isr - tmr -\n",
        answer: Answer::Form(22),
    },
    Row {
        name: "processors that don't ascend",
        number: 22,
        line: b"state cpu 07 asleep tpr 00 irr - isr - tmr -\nstate cpu 07 asleep tpr 00 irr - isr - tmr -\n",
        answer: Answer::Form(23),
    },
    Row {
        name: "an I/O APIC of another place",
        number: 23,
        line: b"state io 1 line 000000 due 000000 remote 000000\n",
        answer: Answer::Form(23),
    },
    Row {
        name: "processor FF",
        number: 22,
        line: b"state cpu FF asleep tpr 00 irr - isr - tmr -\n",
        answer: WHOLE,
    },
    Row {
        name: "a started processor",
        number: 22,
        line: b"state cpu 01 started.9F tpr FF irr 00 isr 0F tmr FE,FF\n",
        answer: WHOLE,
    },
    Row {
        name: "a list that ends in a comma",
        number: 22,
        line: b"state cpu 00 first tpr 00 irr 21, isr - tmr -\n",
        answer: Answer::Form(22),
    },
    Row {
        name: "no register",
        number: 21,
        line: b"state imcr off\n",
        answer: Answer::Form(21),
    },
    Row {
        name: "a mask of 25 bits",
        number: 23,
        line: b"state io 0 line 1000000 due 000000 remote 000000\n",
        answer: Answer::Form(23),
    },
    Row {
        name: "no I/O APIC",
        number: 23,
        line: b"",
        answer: WHOLE_BUT_ONE,
    },
    Row {
        name: "a further line",
        number: 25,
        line: b"end\n",
        answer: Answer::Late(25),
    },
    Row {
        name: "an empty line behind",
        number: 25,
        line: b"\n",
        answer: Answer::Late(25),
    },
    Row {
        name: "no end",
        number: 24,
        line: b"",
        answer: Answer::Early(24),
    },
];

#[test]
fn lines_of_entries_are_judged(rt: HostRuntime) {
    same_answers(&rt, rt.alloc(), three_devices_text(), ENTRIES);
}

#[test]
fn ops_are_read(rt: HostRuntime) {
    same_answers(&rt, rt.alloc(), three_devices_text(), OPS);
}

#[test]
fn lines_of_logs_and_states_are_judged(rt: HostRuntime) {
    same_answers(&rt, rt.alloc(), three_devices_text(), STATES);
}
