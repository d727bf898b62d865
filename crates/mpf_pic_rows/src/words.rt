//! Calls of the pair in PIC mode, on a board of one processor: each word in each stage, the cascade, the
//! priorities, and three sequences of the 8259A datasheet.

use crate::harness::{Row, Wired, has_text};

const ROWS: &[Row] = &[
    Row {
        name: "the master's words in each stage",
        imcr: true,
        wired: Wired::Nothing,
        calls: b"irq 3 up
in 20
out 20 0B
in 20
out 20 08
in 20
out 20 0A
in 20
out 21 5A
in 21
out 20 23
ack
out 20 0B
out 20 11
in 20
in 21
irq 3 up
in 20
irq 3 down
irq 3 up
in 20
out 20 0B
in 20
out 20 20
out 20 0A
in 20
out 21 27
in 21
out 20 0B
in 20
out 20 63
out 20 0A
in 20
out 21 FF
in 21
out 20 0B
in 20
out 20 20
out 20 0A
in 20
ack
out 21 FF
in 21
ack
in 20
out 20 0B
in 20
out 21 08
in 21
out 20 60
in 20
out 20 63
in 20
",
        text: b"in 20 = 08
in 20 = 00
in 20 = 00
in 20 = 08
in 21 = 5A
ack none
in 20 = 00
in 21 = 00
in 20 = 00
in 20 = 08
in 20 = 00
in 20 = 08
in 21 = 00
in 20 = 00
in 20 = 08
in 21 = 00
in 20 = 00
in 20 = 08
ack none
in 21 = 00
ack 23 direct
in 20 = 00
in 20 = 08
in 21 = 08
in 20 = 08
in 20 = 00
end
",
    },
    Row {
        name: "the slave's words in each stage",
        imcr: true,
        wired: Wired::Nothing,
        calls: b"out A1 C3
in A1
out A0 0B
in A0
out A0 11
in A1
irq 9 up
in A0
out A0 0B
in A0
out A0 20
out A0 0A
in A0
out A1 2F
in A1
out A0 0B
in A0
out A0 61
out A0 0A
in A0
in 20
out A1 02
in A0
in A1
in 20
out A0 0B
in A0
out A0 0A
out A1 01
in 20
in A1
out A1 02
in A1
in 20
in A0
out A1 00
ack
out 20 10
out 21 20
in 20
out 21 04
ack
in 20
in A0
out 20 0B
in 20
out A0 0B
in A0
out A0 61
in A0
in 20
out A0 10
out 20 0B
in 20
",
        text: b"in A1 = C3
in A0 = 00
in A1 = 00
in A0 = 02
in A0 = 00
in A0 = 02
in A1 = 00
in A0 = 00
in A0 = 02
in 20 = 00
in A0 = 02
in A1 = 00
in 20 = 00
in A0 = 00
in 20 = 04
in A1 = 00
in A1 = 02
in 20 = 00
in A0 = 02
ack none
in 20 = 04
ack 29 direct
in 20 = 00
in A0 = 00
in 20 = 04
in A0 = 02
in A0 = 00
in 20 = 04
in 20 = 04
end
",
    },
    Row {
        name: "the first word starts again in each stage",
        imcr: true,
        wired: Wired::Nothing,
        calls: b"out 20 11
out 20 10
out 21 20
out 20 11
out 21 30
out 21 00
out 20 10
out 21 40
out 21 00
irq 0 up
ack
irq 1 up
out 21 F0
out 20 0B
in 20
in 21
out 20 10
in 20
in 21
out 20 0B
in 20
out 21 50
out 21 00
irq 1 up
ack
irq 1 down
irq 1 up
ack
",
        text: b"ack 40 direct
in 20 = 01
in 21 = F0
in 20 = 00
in 21 = 00
in 20 = 00
ack none
ack 51 direct
end
",
    },
    Row {
        name: "other operation words",
        imcr: true,
        wired: Wired::Nothing,
        calls: b"out 20 10
out 21 20
out 21 04
irq 3 up
irq 5 up
ack
out 20 0B
out 20 03
out 20 43
out 20 83
out 20 A3
out 20 C3
out 20 E3
in 20
out 20 6C
in 20
out 20 6E
in 20
out 20 6F
in 20
out 20 27
in 20
ack
",
        text: b"ack 23 direct
in 20 = 08
in 20 = 08
in 20 = 20
in 20 = 08
in 20 = 00
ack 25 direct
end
",
    },
    Row {
        name: "the cascade is masked, then in service",
        imcr: true,
        wired: Wired::Nothing,
        calls: b"out 20 11
out A0 11
out 21 20
out A1 28
out 21 04
out A1 02
out 21 01
out A1 01
irq 12 up
out 21 04
in 20
ack
out 21 00
ack
irq 9 up
in 20
ack
out 20 62
ack
irq 13 up
in 20
out A0 20
out A0 0B
in A0
in 20
out 20 0B
in 20
out A0 64
out 20 0A
in 20
out 20 20
ack
",
        text: b"in 20 = 04
ack none
ack 2C direct
in 20 = 04
ack none
ack 29 direct
in 20 = 00
in A0 = 10
in 20 = 00
in 20 = 04
in 20 = 04
ack 2D direct
end
",
    },
    Row {
        name: "the slave's while the master serves a lower one",
        imcr: true,
        wired: Wired::Nothing,
        calls: b"out 20 11
out A0 11
out 21 20
out A1 28
out 21 04
out A1 02
out 21 01
out A1 01
irq 3 up
irq 3 down
ack
irq 12 up
ack
irq 1 up
ack
irq 8 up
ack
out 20 0B
out A0 0B
in 20
in A0
out 20 20
ack
out 20 20
ack
in 20
in A0
out 20 20
out A0 20
in 20
in A0
",
        text: b"ack 23 direct
ack 2C direct
ack 21 direct
ack none
in 20 = 0E
in A0 = 10
ack none
ack 28 direct
in 20 = 0C
in A0 = 11
in 20 = 08
in A0 = 10
end
",
    },
    Row {
        name: "all lines, by priority",
        imcr: true,
        wired: Wired::Nothing,
        calls: b"out 20 11
out A0 11
out 21 20
out A1 28
out 21 04
out A1 02
out 21 01
out A1 01
irq 15 up
irq 14 up
irq 13 up
irq 12 up
irq 11 up
irq 10 up
irq 9 up
irq 8 up
irq 7 up
irq 6 up
irq 5 up
irq 4 up
irq 3 up
irq 1 up
irq 0 up
in 20
in A0
ack
out 20 20
ack
out 20 20
ack
out A0 20
out 20 20
ack
out A0 20
out 20 20
ack
out A0 20
out 20 20
ack
out A0 20
out 20 20
ack
out A0 20
out 20 20
ack
out A0 20
out 20 20
ack
out A0 20
out 20 20
ack
out A0 20
out 20 20
ack
out 20 20
ack
out 20 20
ack
out 20 20
ack
out 20 20
ack
out 20 20
ack
",
        text: b"in 20 = FF
in A0 = FF
ack 20 direct
ack 21 direct
ack 28 direct
ack 29 direct
ack 2A direct
ack 2B direct
ack 2C direct
ack 2D direct
ack 2E direct
ack 2F direct
ack 23 direct
ack 24 direct
ack 25 direct
ack 26 direct
ack 27 direct
ack none
end
",
    },
    Row {
        name: "an AT is initialised",
        imcr: true,
        wired: Wired::Nothing,
        calls: b"out 20 11
out A0 11
out 21 08
out A1 70
out 21 04
out A1 02
out 21 01
out A1 01
out 21 B8
out A1 9F
in 21
in A1
in 20
in A0
irq 3 up
irq 8 up
irq 14 up
irq 13 up
irq 6 up
irq 0 up
in 20
in A0
ack
out 20 20
ack
out A0 20
out 20 20
ack
out A0 20
out 20 20
ack
out 20 20
ack
",
        text: b"in 21 = B8
in A1 = 9F
in 20 = 00
in A0 = 00
in 20 = 4D
in A0 = 61
ack 08 direct
ack 75 direct
ack 76 direct
ack 0E direct
ack none
end
",
    },
    Row {
        name: "nested interrupts of one controller",
        imcr: true,
        wired: Wired::Nothing,
        calls: b"out 20 11
out 21 20
out 21 04
out 21 01
out 20 0B
irq 7 up
ack
irq 6 up
ack
irq 5 up
ack
irq 4 up
ack
irq 3 up
ack
irq 1 up
ack
irq 0 up
ack
in 20
irq 3 down
irq 3 up
irq 7 down
irq 7 up
ack
out 20 20
in 20
ack
out 20 20
in 20
ack
out 20 20
in 20
ack
out 20 20
out 20 20
in 20
out 20 20
in 20
out 20 20
in 20
ack
out 20 20
in 20
ack
",
        text: b"ack 27 direct
ack 26 direct
ack 25 direct
ack 24 direct
ack 23 direct
ack 21 direct
ack 20 direct
in 20 = FB
ack none
in 20 = FA
ack none
in 20 = F8
ack none
in 20 = F0
ack 23 direct
in 20 = E0
in 20 = C0
in 20 = 80
ack none
in 20 = 00
ack 27 direct
end
",
    },
    Row {
        name: "the end of a slave's interrupt",
        imcr: true,
        wired: Wired::Nothing,
        calls: b"out 20 11
out A0 11
out 21 20
out A1 28
out 21 04
out A1 02
out 21 01
out A1 01
out 20 0B
out A0 0B
irq 12 up
ack
in 20
in A0
irq 14 up
irq 7 up
ack
out A0 20
in A0
in 20
ack
out 20 20
in 20
ack
",
        text: b"ack 2C direct
in 20 = 04
in A0 = 10
ack none
in A0 = 00
in 20 = 04
ack none
in 20 = 00
ack 2E direct
end
",
    },
];

#[test]
fn words_and_lines_are_answered(rt: HostRuntime) {
    for row in ROWS {
        has_text(&rt, rt.alloc(), row);
    }
}
