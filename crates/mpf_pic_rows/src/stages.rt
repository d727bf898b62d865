//! Each word in each stage of the initialisation of each controller: none but the data words brings it further,
//! and a first word begins again. After each word the registers are read.

use crate::harness::{Row, Wired, has_text};

const ROWS: &[Row] = &[
    Row {
        name: "each operation word in each stage of the master",
        imcr: true,
        wired: Wired::Nothing,
        calls: b"irq 3 up
out 21 5A
out 20 00
out 20 20
out 20 40
out 20 63
out 20 80
out 20 A0
out 20 C0
out 20 E0
out 20 0B
in 20
out 20 08
in 20
out 20 0A
in 20
out 20 09
in 20
in 21
out 20 11
irq 3 down
irq 3 up
out 20 00
out 20 20
out 20 40
out 20 63
out 20 80
out 20 A0
out 20 C0
out 20 E0
out 20 0B
in 20
out 20 08
in 20
out 20 0A
in 20
out 20 09
in 20
in 21
out 21 27
out 20 00
out 20 20
out 20 40
out 20 63
out 20 80
out 20 A0
out 20 C0
out 20 E0
out 20 0B
in 20
out 20 08
in 20
out 20 0A
in 20
out 20 09
in 20
in 21
out 21 FF
out 20 00
out 20 20
out 20 40
out 20 63
out 20 80
out 20 A0
out 20 C0
out 20 E0
out 20 0B
in 20
out 20 08
in 20
out 20 0A
in 20
out 20 09
in 20
in 21
out 21 FF
out 20 00
out 20 20
out 20 40
out 20 63
out 20 80
out 20 A0
out 20 C0
out 20 E0
out 20 0B
in 20
out 20 08
in 20
out 20 0A
in 20
out 20 09
in 20
in 21
ack
out 20 20
out 21 F7
in 21
out 20 10
irq 3 down
irq 3 up
out 20 00
out 20 20
out 20 40
out 20 63
out 20 80
out 20 A0
out 20 C0
out 20 E0
out 20 0B
in 20
out 20 08
in 20
out 20 0A
in 20
out 20 09
in 20
in 21
out 21 4F
out 20 00
out 20 20
out 20 40
out 20 63
out 20 80
out 20 A0
out 20 C0
out 20 E0
out 20 0B
in 20
out 20 08
in 20
out 20 0A
in 20
out 20 09
in 20
in 21
out 21 FF
ack
",
        text: b"in 20 = 00
in 20 = 00
in 20 = 08
in 20 = 08
in 21 = 5A
in 20 = 00
in 20 = 00
in 20 = 08
in 20 = 08
in 21 = 00
in 20 = 00
in 20 = 00
in 20 = 08
in 20 = 08
in 21 = 00
in 20 = 00
in 20 = 00
in 20 = 08
in 20 = 08
in 21 = 00
in 20 = 00
in 20 = 00
in 20 = 08
in 20 = 08
in 21 = 00
ack 23 direct
in 21 = F7
in 20 = 00
in 20 = 00
in 20 = 08
in 20 = 08
in 21 = 00
in 20 = 00
in 20 = 00
in 20 = 08
in 20 = 08
in 21 = 00
ack 4B direct
end
",
    },
    Row {
        name: "each operation word in each stage of the slave",
        imcr: true,
        wired: Wired::Nothing,
        calls: b"out 20 10
out 21 20
out 21 04
irq 11 up
out A1 5A
out A0 00
out A0 20
out A0 40
out A0 63
out A0 80
out A0 A0
out A0 C0
out A0 E0
out A0 0B
in A0
out A0 08
in A0
out A0 0A
in A0
out A0 09
in A0
in A1
in 20
out A0 11
irq 11 down
irq 11 up
out A0 00
out A0 20
out A0 40
out A0 63
out A0 80
out A0 A0
out A0 C0
out A0 E0
out A0 0B
in A0
out A0 08
in A0
out A0 0A
in A0
out A0 09
in A0
in A1
in 20
out A1 2F
out A0 00
out A0 20
out A0 40
out A0 63
out A0 80
out A0 A0
out A0 C0
out A0 E0
out A0 0B
in A0
out A0 08
in A0
out A0 0A
in A0
out A0 09
in A0
in A1
in 20
out A1 FF
out A0 00
out A0 20
out A0 40
out A0 63
out A0 80
out A0 A0
out A0 C0
out A0 E0
out A0 0B
in A0
out A0 08
in A0
out A0 0A
in A0
out A0 09
in A0
in A1
in 20
out A1 FF
out A0 00
out A0 20
out A0 40
out A0 63
out A0 80
out A0 A0
out A0 C0
out A0 E0
out A0 0B
in A0
out A0 08
in A0
out A0 0A
in A0
out A0 09
in A0
in A1
in 20
ack
out A0 20
out 20 20
out A1 F7
in A1
out A0 10
irq 11 down
irq 11 up
out A0 00
out A0 20
out A0 40
out A0 63
out A0 80
out A0 A0
out A0 C0
out A0 E0
out A0 0B
in A0
out A0 08
in A0
out A0 0A
in A0
out A0 09
in A0
in A1
in 20
out A1 4F
out A0 00
out A0 20
out A0 40
out A0 63
out A0 80
out A0 A0
out A0 C0
out A0 E0
out A0 0B
in A0
out A0 08
in A0
out A0 0A
in A0
out A0 09
in A0
in A1
in 20
out A1 FF
ack
",
        text: b"in A0 = 00
in A0 = 00
in A0 = 08
in A0 = 08
in A1 = 5A
in 20 = 00
in A0 = 00
in A0 = 00
in A0 = 08
in A0 = 08
in A1 = 00
in 20 = 00
in A0 = 00
in A0 = 00
in A0 = 08
in A0 = 08
in A1 = 00
in 20 = 00
in A0 = 00
in A0 = 00
in A0 = 08
in A0 = 08
in A1 = 00
in 20 = 00
in A0 = 00
in A0 = 00
in A0 = 08
in A0 = 08
in A1 = 00
in 20 = 04
ack 2B direct
in A1 = F7
in A0 = 00
in A0 = 00
in A0 = 08
in A0 = 08
in A1 = 00
in 20 = 00
in A0 = 00
in A0 = 00
in A0 = 08
in A0 = 08
in A1 = 00
in 20 = 00
ack 4B direct
end
",
    },
    Row {
        name: "the first word without a fourth in each stage of the master",
        imcr: true,
        wired: Wired::Nothing,
        calls: b"out 20 10
out 21 08
out 21 04
out 21 FE
in 21
irq 0 down
irq 0 up
ack
out 20 20
out 20 10
out 20 10
out 21 10
out 21 04
out 21 FE
in 21
irq 0 down
irq 0 up
ack
out 20 20
out 20 11
out 20 10
out 21 18
out 21 04
out 21 FE
in 21
irq 0 down
irq 0 up
ack
out 20 20
out 20 10
out 21 F8
out 20 10
out 21 20
out 21 04
out 21 FE
in 21
irq 0 down
irq 0 up
ack
out 20 20
out 20 11
out 21 F8
out 20 10
out 21 28
out 21 04
out 21 FE
in 21
irq 0 down
irq 0 up
ack
out 20 20
out 20 11
out 21 F8
out 21 04
out 20 10
out 21 30
out 21 04
out 21 FE
in 21
irq 0 down
irq 0 up
ack
out 20 20
out 20 10
out 21 38
out 21 04
out 21 FE
in 21
irq 0 down
irq 0 up
ack
out 20 20
",
        text: b"in 21 = FE
ack 08 direct
in 21 = FE
ack 10 direct
in 21 = FE
ack 18 direct
in 21 = FE
ack 20 direct
in 21 = FE
ack 28 direct
in 21 = FE
ack 30 direct
in 21 = FE
ack 38 direct
end
",
    },
    Row {
        name: "the first word with a fourth in each stage of the master",
        imcr: true,
        wired: Wired::Nothing,
        calls: b"out 20 11
out 21 08
out 21 04
out 21 FE
in 21
irq 0 down
irq 0 up
ack
out 20 20
out 20 10
out 20 11
out 21 10
out 21 04
out 21 FE
in 21
irq 0 down
irq 0 up
ack
out 20 20
out 20 11
out 20 11
out 21 18
out 21 04
out 21 FE
in 21
irq 0 down
irq 0 up
ack
out 20 20
out 20 10
out 21 F8
out 20 11
out 21 20
out 21 04
out 21 FE
in 21
irq 0 down
irq 0 up
ack
out 20 20
out 20 11
out 21 F8
out 20 11
out 21 28
out 21 04
out 21 FE
in 21
irq 0 down
irq 0 up
ack
out 20 20
out 20 11
out 21 F8
out 21 04
out 20 11
out 21 30
out 21 04
out 21 FE
in 21
irq 0 down
irq 0 up
ack
out 20 20
out 20 11
out 21 38
out 21 04
out 21 FE
in 21
irq 0 down
irq 0 up
ack
out 20 20
",
        text: b"in 21 = 00
ack 08 direct
in 21 = 00
ack 10 direct
in 21 = 00
ack 18 direct
in 21 = 00
ack 20 direct
in 21 = 00
ack 28 direct
in 21 = 00
ack 30 direct
in 21 = 00
ack 38 direct
end
",
    },
    Row {
        name: "the first word without a fourth in each stage of the slave",
        imcr: true,
        wired: Wired::Nothing,
        calls: b"out 20 10
out 21 20
out 21 04
out A0 10
out A1 08
out A1 04
out A1 FE
in A1
irq 8 down
irq 8 up
ack
out A0 20
out 20 20
out A0 10
out A0 10
out A1 10
out A1 04
out A1 FE
in A1
irq 8 down
irq 8 up
ack
out A0 20
out 20 20
out A0 11
out A0 10
out A1 18
out A1 04
out A1 FE
in A1
irq 8 down
irq 8 up
ack
out A0 20
out 20 20
out A0 10
out A1 F8
out A0 10
out A1 20
out A1 04
out A1 FE
in A1
irq 8 down
irq 8 up
ack
out A0 20
out 20 20
out A0 11
out A1 F8
out A0 10
out A1 28
out A1 04
out A1 FE
in A1
irq 8 down
irq 8 up
ack
out A0 20
out 20 20
out A0 11
out A1 F8
out A1 04
out A0 10
out A1 30
out A1 04
out A1 FE
in A1
irq 8 down
irq 8 up
ack
out A0 20
out 20 20
out A0 10
out A1 38
out A1 04
out A1 FE
in A1
irq 8 down
irq 8 up
ack
out A0 20
out 20 20
",
        text: b"in A1 = FE
ack 08 direct
in A1 = FE
ack 10 direct
in A1 = FE
ack 18 direct
in A1 = FE
ack 20 direct
in A1 = FE
ack 28 direct
in A1 = FE
ack 30 direct
in A1 = FE
ack 38 direct
end
",
    },
    Row {
        name: "the first word with a fourth in each stage of the slave",
        imcr: true,
        wired: Wired::Nothing,
        calls: b"out 20 10
out 21 20
out 21 04
out A0 11
out A1 08
out A1 04
out A1 FE
in A1
irq 8 down
irq 8 up
ack
out A0 20
out 20 20
out A0 10
out A0 11
out A1 10
out A1 04
out A1 FE
in A1
irq 8 down
irq 8 up
ack
out A0 20
out 20 20
out A0 11
out A0 11
out A1 18
out A1 04
out A1 FE
in A1
irq 8 down
irq 8 up
ack
out A0 20
out 20 20
out A0 10
out A1 F8
out A0 11
out A1 20
out A1 04
out A1 FE
in A1
irq 8 down
irq 8 up
ack
out A0 20
out 20 20
out A0 11
out A1 F8
out A0 11
out A1 28
out A1 04
out A1 FE
in A1
irq 8 down
irq 8 up
ack
out A0 20
out 20 20
out A0 11
out A1 F8
out A1 04
out A0 11
out A1 30
out A1 04
out A1 FE
in A1
irq 8 down
irq 8 up
ack
out A0 20
out 20 20
out A0 11
out A1 38
out A1 04
out A1 FE
in A1
irq 8 down
irq 8 up
ack
out A0 20
out 20 20
",
        text: b"in A1 = 00
ack 08 direct
in A1 = 00
ack 10 direct
in A1 = 00
ack 18 direct
in A1 = 00
ack 20 direct
in A1 = 00
ack 28 direct
in A1 = 00
ack 30 direct
in A1 = 00
ack 38 direct
end
",
    },
    Row {
        name: "other operation words of the slave",
        imcr: true,
        wired: Wired::Nothing,
        calls: b"out 20 10
out 21 20
out 21 04
out A0 10
out A1 28
out A1 02
irq 11 up
irq 13 up
ack
out A0 0B
out A0 03
out A0 43
out A0 83
out A0 A3
out A0 C3
out A0 E3
in A0
out A0 6C
in A0
out A0 6E
in A0
out A0 6F
in A0
out A0 62
in A0
out A0 27
in A0
out 20 0B
in 20
out 20 63
in 20
out 20 62
in 20
ack
",
        text: b"ack 2B direct
in A0 = 08
in A0 = 08
in A0 = 20
in A0 = 08
in A0 = 08
in A0 = 00
in 20 = 04
in 20 = 04
in 20 = 00
ack 2D direct
end
",
    },
];

#[test]
fn words_come_in_each_stage(rt: HostRuntime) {
    for row in ROWS {
        has_text(&rt, rt.alloc(), row);
    }
}
