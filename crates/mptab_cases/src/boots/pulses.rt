//! Pulses, registers, and the turns of an I/O APIC.

use crate::boots::{Entry, Row, Tables};

/// Pulses, and registers as they were written.
pub fn rows() -> &'static [Row] {
    ROWS
}

const ROWS: &[Row] = &[
    Row {
        name: "pulses at masked, level and due pins",
        tables: Tables::Listed(
            &[Entry::Boot(0)],
            b"bus id 00 name \"ISA   \"
bus id 01 name \"PCI   \"
ioapic id 01 version 11 flags 01 address FEC00000
ioint kind 00 flags 0000 bus 00 irq 01 dest 01 pin 01
ioint kind 00 flags 0000 bus 01 irq 00 dest 01 pin 10
",
        ),
        script: b"page = 0x9F

[[cpu]]
id = 0
words = [
  \"iosel 0 0x12\", \"ioread 0\", \"ioread 0\", \"iowin 0 0x22\",
  \"ioread 0\", \"iowin 0 0x10022\", \"iowin 0 0x22\",
]

[[device]]
words = [\"pulse 0 1\", \"pulse 0 16\", \"pulse 0 2\", \"pulse 0 1\"]

[[device]]
words = [\"pulse 0 1\"]
",
        status: 0,
        text: b"mpboot 1
entries 24
0 cpu 00 iosel 0 13 : done
1 cpu 00 iowin 0 00000000 : plain
2 cpu 00 iosel 0 12 : done
3 cpu 00 iowin 0 00000021 : plain
4 cpu 00 iosel 0 31 : done
5 cpu 00 iowin 0 00000000 : plain
6 cpu 00 iosel 0 30 : done
7 cpu 00 iowin 0 0000A030 : plain
8 dev 0 begin : done
9 dev 1 begin : done
10 cpu 00 iosel 0 12 : done
11 cpu 00 ioread 0 : read.00000021
12 io 0 collect 000002 : pins.000002.000000
13 dev 1 end : done
14 cpu 00 ioread 0 : read.00001021
15 io 0 collect 010000 : pins.000000.000000
16 cpu 00 iowin 0 00000022 : plain
17 io 0 collect 000004 : pins.000000.000000
18 cpu 00 ioread 0 : read.00001022
19 io 0 collect 000002 : pins.000000.000002
20 dev 0 end : done
21 cpu 00 iowin 0 00010022 : withdrawn
22 io 0 sweep : done
23 cpu 00 iowin 0 00000022 : plain
log 0 : 0.1=new 0.16=new 0.2=new 0.1=new
log 1 : 0.1=merged
state imcr none
state cpu 00 first tpr 00 irr - isr - tmr -
state io 0 line 000000 due 000000 remote 000000
end
",
    },
    Row {
        name: "every kind of register is read and written",
        tables: Tables::Listed(
            &[Entry::Boot(0)],
            b"ioapic id 11 version 11 flags 01 address FEC00000
",
        ),
        script: b"page = 0x9F

[[cpu]]
id = 0
words = [
  \"ioread 0\", \"iosel 0 2\", \"ioread 0\",
  \"iosel 0 0\", \"iowin 0 0xF5FFFFFF\", \"ioread 0\",
  \"iosel 0 2\", \"ioread 0\", \"iowin 0 0x0A000000\", \"ioread 0\",
  \"iosel 0 1\", \"iowin 0 0xFFFFFFFF\", \"ioread 0\",
  \"iosel 0 3\", \"iowin 0 0xFFFFFFFF\", \"ioread 0\",
  \"iosel 0 15\", \"iowin 0 0xFFFFFFFF\",
  \"iosel 0 0x10\", \"ioread 0\", \"iowin 0 0xFFFFFFFF\", \"ioread 0\",
  \"iosel 0 0x3F\", \"ioread 0\", \"iowin 0 0xFFFFFFFF\", \"ioread 0\",
  \"iosel 0 15\", \"ioread 0\",
  \"iosel 0 0x40\", \"iowin 0 0xFFFEFFFF\", \"ioread 0\",
  \"iosel 0 0\", \"ioread 0\",
]
",
        status: 0,
        text: b"mpboot 1
entries 34
0 cpu 00 ioread 0 : read.01000000
1 io 0 sweep : done
2 cpu 00 iosel 0 02 : done
3 cpu 00 ioread 0 : read.01000000
4 cpu 00 iosel 0 00 : done
5 cpu 00 iowin 0 F5FFFFFF : plain
6 cpu 00 ioread 0 : read.05000000
7 cpu 00 iosel 0 02 : done
8 cpu 00 ioread 0 : read.05000000
9 cpu 00 iowin 0 0A000000 : plain
10 cpu 00 ioread 0 : read.05000000
11 cpu 00 iosel 0 01 : done
12 cpu 00 iowin 0 FFFFFFFF : plain
13 cpu 00 ioread 0 : read.00170011
14 cpu 00 iosel 0 03 : done
15 cpu 00 iowin 0 FFFFFFFF : plain
16 cpu 00 ioread 0 : read.00000000
17 cpu 00 iosel 0 0F : done
18 cpu 00 iowin 0 FFFFFFFF : plain
19 cpu 00 iosel 0 10 : done
20 cpu 00 ioread 0 : read.00010000
21 cpu 00 iowin 0 FFFFFFFF : plain
22 cpu 00 ioread 0 : read.0001AFFF
23 cpu 00 iosel 0 3F : done
24 cpu 00 ioread 0 : read.00000000
25 cpu 00 iowin 0 FFFFFFFF : plain
26 cpu 00 ioread 0 : read.FF000000
27 cpu 00 iosel 0 0F : done
28 cpu 00 ioread 0 : read.00000000
29 cpu 00 iosel 0 40 : done
30 cpu 00 iowin 0 FFFEFFFF : plain
31 cpu 00 ioread 0 : read.00000000
32 cpu 00 iosel 0 00 : done
33 cpu 00 ioread 0 : read.05000000
state imcr none
state cpu 00 first tpr 00 irr - isr - tmr -
state io 0 line 000000 due 000000 remote 000000
end
",
    },
    Row {
        name: "an I/O APIC collects before it sends, and the line of an edge pin is nothing to it",
        tables: Tables::Listed(
            &[Entry::Boot(0)],
            b"bus id 00 name \"ISA   \"
ioapic id 01 version 11 flags 01 address FEC00000
ioint kind 00 flags 0000 bus 00 irq 01 dest 01 pin 01
",
        ),
        script: b"page = 0x9F

[[cpu]]
id = 0
words = [\"take\", \"eoi\"]

[[device]]
words = [\"pulse 0 1\", \"pulse 0 1\"]

[[device]]
words = [\"high 0 1\", \"low 0 1\"]
",
        status: 0,
        text: b"mpboot 1
entries 16
0 cpu 00 iosel 0 13 : done
1 cpu 00 iowin 0 00000000 : plain
2 cpu 00 iosel 0 12 : done
3 cpu 00 iowin 0 00000021 : plain
4 dev 0 begin : done
5 dev 1 begin : done
6 dev 1 high 0 1 : plain
7 io 0 collect 000002 : pins.000002.000000
8 dev 1 low 0 1 : plain
9 io 0 collect 000002 : pins.000000.000002
10 dev 0 end : done
11 dev 1 end : done
12 io 0 send 1 : 00=set
13 cpu 00 take : taken.21
14 io 0 sweep : done
15 cpu 00 eoi : ended.21.edge
log 0 : 0.1=new 0.1=new
log 1 : none
state imcr none
state cpu 00 first tpr 00 irr - isr - tmr -
state io 0 line 000000 due 000000 remote 000000
end
",
    },
];
