//! Starts of processors, broadcasts, and the classes of vectors.

use crate::boots::{Entry, Row, Tables};

/// Processors that start, hear and take.
pub fn rows() -> &'static [Row] {
    ROWS
}

const ROWS: &[Row] = &[
    Row {
        name: "processors start one by one, an old one at its INIT, and messages reach none before",
        tables: Tables::Text(
            b"mptable 1
pointer at 000F0000 table 000F0010 revision 04 features 0080000000
header revision 04 oem \"MPTAB   \" product \"BOARD       \" oemtable 00000000 oemsize 0000 local FEE00000 reserved 00
processor id 00 version 10 flags 03 signature 00000000 features 00000000 reserved 0000000000000000
processor id 01 version 0F flags 01 signature 00000000 features 00000000 reserved 0000000000000000
processor id 02 version 10 flags 01 signature 00000000 features 00000000 reserved 0000000000000000
end
",
        ),
        script: b"page = 0x9F

[[cpu]]
id = 1
words = [\"nmi 2\", \"ipi 2 0x40\", \"nmi 255\", \"nmi 2\", \"ipi 2 0x40\", \"nmi 2\", \"ipi 2 0x40\"]

[[cpu]]
id = 2
words = [\"take\"]
",
        status: 0,
        text: b"mpboot 1
entries 20
0 cpu 00 imcr : done
1 cpu 00 warm 9F : done
2 cpu 00 init 01 : 01=started.9F
3 cpu 01 nmi 02 : 02=asleep
4 cpu 00 pause 10000 : done
5 cpu 01 ipi 02 40 : 02=asleep
6 cpu 00 check 01 : 01=runs.9F
7 cpu 01 nmi FF : 00=nmi 01=nmi 02=asleep
8 cpu 00 init 02 : 02=waiting
9 cpu 01 nmi 02 : 02=asleep
10 cpu 00 pause 10000 : done
11 cpu 01 ipi 02 40 : 02=asleep
12 cpu 00 startup 02 9F : 02=started.9F
13 cpu 01 nmi 02 : 02=nmi
14 cpu 00 pause 200 : done
15 cpu 01 ipi 02 40 : 02=set
16 cpu 02 take : taken.40
17 cpu 00 startup 02 9F : 02=ignored
18 cpu 00 pause 200 : done
19 cpu 00 check 02 : 02=runs.9F
state imcr apic
state cpu 00 first tpr 00 irr - isr - tmr -
state cpu 01 started.9F tpr 00 irr - isr - tmr -
state cpu 02 started.9F tpr 00 irr - isr 40 tmr -
end
",
    },
    Row {
        name: "four processors hear a broadcast, and nobody hears a message to nobody",
        tables: Tables::Listed(
            &[Entry::Boot(0)],
            b"processor id 01 version 01 flags 01 signature 00000000 features 00000000 reserved 0000000000000000
processor id 02 version 01 flags 01 signature 00000000 features 00000000 reserved 0000000000000000
processor id 09 version 01 flags 01 signature 00000000 features 00000000 reserved 0000000000000000
ioapic id 03 version 11 flags 01 address FEC00000
",
        ),
        script: b"page = 0x9F

[[cpu]]
id = 0
words = [\"ipi 255 0x34\", \"ipi 5 0x34\", \"nmi 255\", \"nmi 5\"]

[[cpu]]
id = 1
words = [
  \"iosel 0 0x11\", \"iowin 0 0x0F000000\", \"iosel 0 0x10\", \"iowin 0 0x31\",
  \"iosel 0 0x13\", \"iowin 0 0x19000000\", \"iosel 0 0x12\", \"iowin 0 0x32\",
  \"iosel 0 0x15\", \"iowin 0 0x05000000\", \"iosel 0 0x14\", \"iowin 0 0x33\",
]

[[device]]
words = [\"pulse 0 0\", \"pulse 0 1\", \"pulse 0 2\"]
",
        status: 0,
        text: b"mpboot 1
entries 37
0 cpu 00 warm 9F : done
1 cpu 00 init 01 : 01=started.9F
2 cpu 01 iosel 0 11 : done
3 cpu 00 pause 10000 : done
4 cpu 01 iowin 0 0F000000 : plain
5 cpu 00 check 01 : 01=runs.9F
6 cpu 01 iosel 0 10 : done
7 cpu 00 warm 9F : done
8 cpu 01 iowin 0 00000031 : plain
9 cpu 00 init 02 : 02=started.9F
10 cpu 01 iosel 0 13 : done
11 cpu 00 pause 10000 : done
12 cpu 01 iowin 0 19000000 : plain
13 cpu 00 check 02 : 02=runs.9F
14 cpu 01 iosel 0 12 : done
15 cpu 00 warm 9F : done
16 cpu 01 iowin 0 00000032 : plain
17 cpu 00 init 09 : 09=started.9F
18 cpu 01 iosel 0 15 : done
19 cpu 00 pause 10000 : done
20 cpu 01 iowin 0 05000000 : plain
21 cpu 00 check 09 : 09=runs.9F
22 cpu 01 iosel 0 14 : done
23 dev 0 begin : done
24 cpu 00 ipi FF 34 : 00=set 01=set 02=set 09=set
25 cpu 01 iowin 0 00000033 : plain
26 cpu 00 ipi 05 34 : 05=absent
27 io 0 collect 000001 : pins.000001.000000
28 cpu 00 nmi FF : 00=nmi 01=nmi 02=nmi 09=nmi
29 io 0 collect 000002 : pins.000002.000000
30 cpu 00 nmi 05 : 05=absent
31 io 0 collect 000004 : pins.000004.000000
32 dev 0 end : done
33 io 0 send 0 : 00=set 01=set 02=set 09=set
34 io 0 send 1 : 09=set
35 io 0 send 2 : 05=absent
36 io 0 sweep : done
log 0 : 0.0=new 0.1=new 0.2=new
state imcr none
state cpu 00 first tpr 00 irr 31,34 isr - tmr -
state cpu 01 started.9F tpr 00 irr 31,34 isr - tmr -
state cpu 02 started.9F tpr 00 irr 31,34 isr - tmr -
state cpu 09 started.9F tpr 00 irr 31,32,34 isr - tmr -
state io 0 line 000000 due 000000 remote 000000
end
",
    },
    Row {
        name: "classes hold vectors back",
        tables: Tables::Listed(&[Entry::Boot(0)], b""),
        script: b"page = 0x9F

[[cpu]]
id = 0
words = [
  \"ipi 0 15\", \"ipi 0 16\", \"poll\",
  \"ipi 0 0x21\", \"tpr 0x20\", \"poll\", \"tpr 0x1F\", \"poll\",
  \"ipi 0 0x21\", \"ipi 0 0x2F\", \"ipi 0 0x2F\", \"poll\",
  \"eoi\", \"take\", \"ipi 0 0x30\", \"take\",
  \"eoi\", \"eoi\", \"take\", \"eoi\", \"eoi\", \"eoi\", \"take\",
]
",
        status: 0,
        text: b"mpboot 1
entries 22
0 cpu 00 ipi 00 0F : 00=illegal
1 cpu 00 ipi 00 10 : 00=set
2 cpu 00 poll : taken.10
3 cpu 00 ipi 00 21 : 00=set
4 cpu 00 tpr 20 : done
5 cpu 00 poll : nothing
6 cpu 00 tpr 1F : done
7 cpu 00 poll : taken.21
8 cpu 00 ipi 00 21 : 00=set
9 cpu 00 ipi 00 2F : 00=set
10 cpu 00 ipi 00 2F : 00=merged
11 cpu 00 poll : nothing
12 cpu 00 eoi : ended.21.edge
13 cpu 00 take : taken.2F
14 cpu 00 ipi 00 30 : 00=set
15 cpu 00 take : taken.30
16 cpu 00 eoi : ended.30.edge
17 cpu 00 eoi : ended.2F.edge
18 cpu 00 take : taken.21
19 cpu 00 eoi : ended.21.edge
20 cpu 00 eoi : ended.10.edge
21 cpu 00 eoi : nothing
state imcr none
state cpu 00 first tpr 1F irr - isr - tmr -
end
",
    },
];
