//! Level pins: causes, remote IRR, masks and falls.

use crate::boots::{Entry, Row, Tables};

/// A cause for each message of a level pin, and none without.
pub fn rows() -> &'static [Row] {
    ROWS
}

const ROWS: &[Row] = &[
    Row {
        name: "a level message that nobody accepted needs a cause to be sent again",
        tables: Tables::Listed(
            &[Entry::Boot(0)],
            b"bus id 00 name \"PCI   \"
ioapic id 01 version 11 flags 01 address FEC00000
ioint kind 00 flags 0000 bus 00 irq 00 dest 01 pin 10
",
        ),
        script: b"page = 0x9F

[[cpu]]
id = 0
words = [
  \"iosel 0 0x31\", \"iowin 0 0x05000000\",
  \"iosel 0 0x30\", \"iowin 0 0xA030\", \"ioread 0\", \"ioread 0\", \"iowin 0 0xA030\",
]

[[device]]
words = [\"high 0 16\", \"high 0 16\", \"low 0 16\", \"high 0 16\"]
",
        status: 0,
        text: b"mpboot 1
entries 21
0 cpu 00 iosel 0 31 : done
1 cpu 00 iowin 0 00000000 : plain
2 cpu 00 iosel 0 30 : done
3 cpu 00 iowin 0 0000A030 : plain
4 dev 0 begin : done
5 cpu 00 iosel 0 31 : done
6 dev 0 high 0 16 : due
7 cpu 00 iowin 0 05000000 : plain
8 io 0 send 16 : 05=absent
9 dev 0 high 0 16 : plain
10 cpu 00 iosel 0 30 : done
11 dev 0 low 0 16 : plain
12 cpu 00 iowin 0 0000A030 : plain
13 dev 0 high 0 16 : due
14 cpu 00 ioread 0 : read.0000B030
15 io 0 send 16 : 05=absent
16 dev 0 end : done
17 cpu 00 ioread 0 : read.0000A030
18 io 0 sweep : done
19 cpu 00 iowin 0 0000A030 : due
20 io 0 send 16 : 05=absent
log 0 : none
state imcr none
state cpu 00 first tpr 00 irr - isr - tmr -
state io 0 line 010000 due 000000 remote 000000
end
",
    },
    Row {
        name: "an EOI sends no message again that nobody accepted",
        tables: Tables::Listed(
            &[Entry::Boot(0)],
            b"ioapic id 01 version 11 flags 01 address FEC00000
",
        ),
        script: b"page = 0x9F

[[cpu]]
id = 0
words = [
  \"iosel 0 0x11\", \"iowin 0 0x05000000\", \"iosel 0 0x10\", \"iowin 0 0x8030\",
  \"iosel 0 0x12\", \"iowin 0 0x8030\", \"take\", \"eoi\",
]

[[device]]
words = [\"high 0 0\", \"high 0 1\"]
",
        status: 0,
        text: b"mpboot 1
entries 16
0 cpu 00 iosel 0 11 : done
1 dev 0 begin : done
2 cpu 00 iowin 0 05000000 : plain
3 dev 0 high 0 0 : plain
4 cpu 00 iosel 0 10 : done
5 dev 0 high 0 1 : plain
6 cpu 00 iowin 0 00008030 : due
7 io 0 send 0 : 05=absent
8 dev 0 end : done
9 cpu 00 iosel 0 12 : done
10 io 0 sweep : done
11 cpu 00 iowin 0 00008030 : due
12 io 0 send 1 : 00=set
13 cpu 00 take : taken.30
14 cpu 00 eoi : ended.30.level
15 io 0 send 1 : 00=set
log 0 : none
state imcr none
state cpu 00 first tpr 00 irr 30 isr - tmr 30
state io 0 line 000003 due 000000 remote 000002
end
",
    },
    Row {
        name: "remote IRR holds a level pin",
        tables: Tables::Listed(
            &[Entry::Boot(0)],
            b"bus id 00 name \"PCI   \"
ioapic id 01 version 11 flags 01 address FEC00000
ioint kind 00 flags 0000 bus 00 irq 00 dest 01 pin 10
",
        ),
        script: b"page = 0x9F

[[cpu]]
id = 0
words = [
  \"iosel 0 0x30\", \"take\", \"ioread 0\", \"iowin 0 0xA030\",
  \"iowin 0 0x1A030\", \"eoi\", \"ioread 0\", \"iowin 0 0xA030\",
  \"iowin 0 0x30\", \"iowin 0 0xA030\",
]

[[device]]
words = [\"high 0 16\", \"low 0 16\", \"high 0 16\"]
",
        status: 0,
        text: b"mpboot 1
entries 23
0 cpu 00 iosel 0 31 : done
1 cpu 00 iowin 0 00000000 : plain
2 cpu 00 iosel 0 30 : done
3 cpu 00 iowin 0 0000A030 : plain
4 dev 0 begin : done
5 cpu 00 iosel 0 30 : done
6 dev 0 high 0 16 : due
7 io 0 send 16 : 00=set
8 dev 0 low 0 16 : plain
9 cpu 00 take : taken.30
10 dev 0 high 0 16 : plain
11 cpu 00 ioread 0 : read.0000E030
12 dev 0 end : done
13 cpu 00 iowin 0 0000A030 : plain
14 io 0 sweep : done
15 cpu 00 iowin 0 0001A030 : plain
16 cpu 00 eoi : ended.30.level
17 cpu 00 ioread 0 : read.0001A030
18 cpu 00 iowin 0 0000A030 : due
19 io 0 send 16 : 00=set
20 cpu 00 iowin 0 00000030 : plain
21 cpu 00 iowin 0 0000A030 : due
22 io 0 send 16 : 00=merged
log 0 : none
state imcr none
state cpu 00 first tpr 00 irr 30 isr - tmr 30
state io 0 line 010000 due 000000 remote 010000
end
",
    },
    Row {
        name: "a fall withdraws a message, and a mask holds it",
        tables: Tables::Listed(
            &[Entry::Boot(0)],
            b"bus id 00 name \"PCI   \"
ioapic id 01 version 11 flags 01 address FEC00000
ioint kind 00 flags 0000 bus 00 irq 00 dest 01 pin 10
",
        ),
        script: b"page = 0x9F

[[cpu]]
id = 0
words = [\"iosel 0 0x32\", \"iowin 0 0x1A031\", \"iowin 0 0x1A031\", \"iowin 0 0xA031\"]

[[device]]
words = [\"high 0 16\", \"high 0 17\"]

[[device]]
words = [\"high 0 16\"]

[[device]]
words = [\"low 0 16\", \"low 0 16\"]
",
        status: 0,
        text: b"mpboot 1
entries 21
0 cpu 00 iosel 0 31 : done
1 cpu 00 iowin 0 00000000 : plain
2 cpu 00 iosel 0 30 : done
3 cpu 00 iowin 0 0000A030 : plain
4 dev 0 begin : done
5 dev 1 begin : done
6 dev 2 begin : done
7 cpu 00 iosel 0 32 : done
8 dev 0 high 0 16 : due
9 dev 1 high 0 16 : plain
10 dev 2 low 0 16 : withdrawn
11 cpu 00 iowin 0 0001A031 : plain
12 dev 0 high 0 17 : plain
13 dev 1 end : done
14 dev 2 low 0 16 : plain
15 cpu 00 iowin 0 0001A031 : plain
16 dev 0 end : done
17 dev 2 end : done
18 cpu 00 iowin 0 0000A031 : due
19 io 0 send 17 : 00=set
20 io 0 sweep : done
log 0 : none
log 1 : none
log 2 : none
state imcr none
state cpu 00 first tpr 00 irr 31 isr - tmr 31
state io 0 line 020000 due 000000 remote 020000
end
",
    },
];
