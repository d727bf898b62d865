//! What a message does by its mode, its trigger and its outcome.

use crate::boots::{Entry, Row, Tables};

/// Messages, each as its entry says.
pub fn rows() -> &'static [Row] {
    ROWS
}

const ROWS: &[Row] = &[
    Row {
        name: "each delivery mode of a pin, and a logical destination",
        tables: Tables::Listed(
            &[Entry::Boot(0)],
            b"bus id 00 name \"ISA   \"
ioapic id 01 version 11 flags 01 address FEC00000
ioint kind 02 flags 0000 bus 00 irq 02 dest 01 pin 02
ioint kind 01 flags 0000 bus 00 irq 04 dest 01 pin 04
ioint kind 03 flags 0000 bus 00 irq 07 dest 01 pin 07
",
        ),
        script: b"page = 0x9F

[[cpu]]
id = 0
words = [
  \"iosel 0 0x16\", \"iowin 0 0x8340\",
  \"iosel 0 0x1A\", \"iowin 0 0x8540\",
  \"iosel 0 0x1C\", \"iowin 0 0x8640\",
  \"iosel 0 0x20\", \"iowin 0 0x0840\",
  \"iosel 0 0x12\", \"iowin 0 0x8140\",
]

[[device]]
words = [
  \"pulse 0 2\", \"pulse 0 4\", \"pulse 0 7\",
  \"pulse 0 3\", \"pulse 0 5\", \"pulse 0 6\", \"pulse 0 8\", \"high 0 1\",
]
",
        status: 0,
        text: b"mpboot 1
entries 41
0 cpu 00 iosel 0 15 : done
1 cpu 00 iowin 0 00000000 : plain
2 cpu 00 iosel 0 14 : done
3 cpu 00 iowin 0 00000200 : plain
4 cpu 00 iosel 0 19 : done
5 cpu 00 iowin 0 00000000 : plain
6 cpu 00 iosel 0 18 : done
7 cpu 00 iowin 0 00000400 : plain
8 cpu 00 iosel 0 1F : done
9 cpu 00 iowin 0 00000000 : plain
10 cpu 00 iosel 0 1E : done
11 cpu 00 iowin 0 00000700 : plain
12 dev 0 begin : done
13 cpu 00 iosel 0 16 : done
14 cpu 00 iowin 0 00008340 : plain
15 io 0 collect 000004 : pins.000004.000000
16 cpu 00 iosel 0 1A : done
17 io 0 collect 000010 : pins.000010.000000
18 cpu 00 iowin 0 00008540 : plain
19 io 0 collect 000080 : pins.000080.000000
20 cpu 00 iosel 0 1C : done
21 io 0 collect 000008 : pins.000008.000000
22 cpu 00 iowin 0 00008640 : plain
23 io 0 collect 000020 : pins.000020.000000
24 cpu 00 iosel 0 20 : done
25 io 0 collect 000040 : pins.000040.000000
26 cpu 00 iowin 0 00000840 : plain
27 io 0 collect 000100 : pins.000100.000000
28 dev 0 high 0 1 : plain
29 cpu 00 iosel 0 12 : done
30 io 0 send 2 : 00=passed
31 dev 0 end : done
32 cpu 00 iowin 0 00008140 : due
33 io 0 send 1 : 00=set
34 io 0 send 3 : unheard
35 io 0 send 4 : 00=nmi
36 io 0 send 5 : unheard
37 io 0 send 6 : unheard
38 io 0 send 7 : 00=passed
39 io 0 send 8 : 00=absent
40 io 0 sweep : done
log 0 : 0.2=new 0.4=new 0.7=new 0.3=new 0.5=new 0.6=new 0.8=new
state imcr none
state cpu 00 first tpr 00 irr 40 isr - tmr 40
state io 0 line 000002 due 000000 remote 000002
end
",
    },
    Row {
        name: "the last message of a vector says edge or level",
        tables: Tables::Listed(
            &[Entry::Boot(0)],
            b"bus id 00 name \"PCI   \"
ioapic id 01 version 11 flags 01 address FEC00000
ioint kind 00 flags 0000 bus 00 irq 00 dest 01 pin 10
ioint kind 00 flags 0000 bus 00 irq 04 dest 01 pin 11
",
        ),
        script: b"page = 0x9F

[[cpu]]
id = 0
words = [\"take\", \"ipi 0 0x31\", \"eoi\", \"take\", \"eoi\"]

[[device]]
words = [\"high 0 16\", \"high 0 17\", \"low 0 16\"]
",
        status: 0,
        text: b"mpboot 1
entries 21
0 cpu 00 iosel 0 31 : done
1 cpu 00 iowin 0 00000000 : plain
2 cpu 00 iosel 0 30 : done
3 cpu 00 iowin 0 0000A030 : plain
4 cpu 00 iosel 0 33 : done
5 cpu 00 iowin 0 00000000 : plain
6 cpu 00 iosel 0 32 : done
7 cpu 00 iowin 0 0000A031 : plain
8 dev 0 begin : done
9 dev 0 high 0 16 : due
10 io 0 send 16 : 00=set
11 dev 0 high 0 17 : due
12 cpu 00 take : taken.30
13 io 0 send 17 : 00=set
14 dev 0 low 0 16 : plain
15 cpu 00 ipi 00 31 : 00=merged
16 dev 0 end : done
17 cpu 00 eoi : ended.30.level
18 io 0 sweep : done
19 cpu 00 take : taken.31
20 cpu 00 eoi : ended.31.edge
log 0 : none
state imcr none
state cpu 00 first tpr 00 irr - isr - tmr 30
state io 0 line 020000 due 000000 remote 020000
end
",
    },
    Row {
        name: "a level EOI reaches both I/O APICs, also that of a merged message",
        tables: Tables::Listed(
            &[Entry::Boot(0)],
            b"bus id 00 name \"PCI   \"
ioapic id 01 version 11 flags 01 address FEC00000
ioapic id 02 version 11 flags 01 address FEC00000
ioint kind 00 flags 0000 bus 00 irq 00 dest 01 pin 10
",
        ),
        script: b"page = 0x9F

[[cpu]]
id = 0
words = [\"iosel 1 0x10\", \"iowin 1 0x8030\", \"take\", \"eoi\"]

[[device]]
words = [\"high 0 16\"]

[[device]]
words = [\"high 1 0\"]
",
        status: 0,
        text: b"mpboot 1
entries 20
0 cpu 00 iosel 0 31 : done
1 cpu 00 iowin 0 00000000 : plain
2 cpu 00 iosel 0 30 : done
3 cpu 00 iowin 0 0000A030 : plain
4 dev 0 begin : done
5 dev 1 begin : done
6 cpu 00 iosel 1 10 : done
7 dev 0 high 0 16 : due
8 dev 1 high 1 0 : plain
9 cpu 00 iowin 1 00008030 : due
10 io 0 send 16 : 00=set
11 io 1 send 0 : 00=merged
12 dev 0 end : done
13 dev 1 end : done
14 cpu 00 take : taken.30
15 io 0 sweep : done
16 io 1 sweep : done
17 cpu 00 eoi : ended.30.level
18 io 0 send 16 : 00=set
19 io 1 send 0 : 00=merged
log 0 : none
log 1 : none
state imcr none
state cpu 00 first tpr 00 irr 30 isr - tmr 30
state io 0 line 010000 due 000000 remote 010000
state io 1 line 000001 due 000000 remote 000001
end
",
    },
];
