//! Lines of each kind that are right or wrong in one place.

use crate::harness::{Answer, Row, same_answers};
use crate::texts::{every_form_text, usual_board_text};

const HEADS: &[Row] = &[
    Row {
        name: "another version of the format",
        number: 1,
        line: b"mptable 2\n",
        answer: Answer::Form(1),
    },
    Row {
        name: "a space behind the title",
        number: 1,
        line: b"mptable 1 \n",
        answer: Answer::Form(1),
    },
    Row {
        name: "a carriage return before the line feed",
        number: 1,
        line: b"mptable 1\r\n",
        answer: Answer::Form(1),
    },
    Row {
        name: "an empty line before the title",
        number: 1,
        line: b"\nmptable 1\n",
        answer: Answer::Form(1),
    },
    Row {
        name: "a revision of one digit",
        number: 2,
        line: b"pointer at 000F0000 table 000E0000 revision 4 features 0000000000\n",
        answer: Answer::Form(2),
    },
    Row {
        name: "the revision of 1.1 in the floating pointer",
        number: 2,
        line: b"pointer at 000F0000 table 000E0000 revision 01 features 0000000000\n",
        answer: Answer::Accepted,
    },
    Row {
        name: "a place of nine digits",
        number: 2,
        line: b"pointer at 0000F0000 table 000E0000 revision 04 features 0000000000\n",
        answer: Answer::Form(2),
    },
    Row {
        name: "a place with a digit in lower case",
        number: 2,
        line: b"pointer at 000f0000 table 000E0000 revision 04 features 0000000000\n",
        answer: Answer::Form(2),
    },
    Row {
        name: "features of four bytes",
        number: 2,
        line: b"pointer at 000F0000 table 000E0000 revision 04 features 00000000\n",
        answer: Answer::Form(2),
    },
    Row {
        name: "features of six bytes",
        number: 2,
        line: b"pointer at 000F0000 table 000E0000 revision 04 features 000000000000\n",
        answer: Answer::Form(2),
    },
    Row {
        name: "default configuration 8",
        number: 2,
        line: b"pointer at 000F0000 table 000E0000 revision 04 features 0800000000\n",
        answer: Answer::Form(2),
    },
    Row {
        name: "default configuration 7 has no header",
        number: 2,
        line: b"pointer at 000F0000 table 000E0000 revision 04 features 0700000000\n",
        answer: Answer::Form(3),
    },
    Row {
        name: "no table and no default configuration",
        number: 2,
        line: b"pointer at 000F0000 table 00000000 revision 04 features 0080000000\n",
        answer: Answer::Form(2),
    },
    Row {
        name: "any address, and reserved feature bits",
        number: 2,
        line: b"pointer at 000F0000 table 000E0001 revision 04 features 00FFFFFFFF\n",
        answer: Answer::Accepted,
    },
    Row {
        name: "the revision of 1.1 with the field of 1.4 in the header",
        number: 3,
        line: b"header revision 01 oem \"MPTAB   \" product \"BOARD       \" oemtable 00000000 oemsize 0000 local FEE00000 reserved 00\n",
        answer: Answer::Form(3),
    },
    Row {
        name: "the revision of 1.4 with the field of 1.1 in the header",
        number: 3,
        line: b"header revision 04 oem \"MPTAB   \" product \"BOARD       \" oemtable 00000000 oemsize 0000 local FEE00000 old 00000000\n",
        answer: Answer::Form(3),
    },
    Row {
        name: "an OEM id of seven bytes",
        number: 3,
        line: b"header revision 04 oem \"MPTAB  \" product \"BOARD       \" oemtable 00000000 oemsize 0000 local FEE00000 reserved 00\n",
        answer: Answer::Form(3),
    },
    Row {
        name: "a product id of thirteen bytes",
        number: 3,
        line: b"header revision 04 oem \"MPTAB   \" product \"BOARD        \" oemtable 00000000 oemsize 0000 local FEE00000 reserved 00\n",
        answer: Answer::Form(3),
    },
    Row {
        name: "fields in another order",
        number: 3,
        line: b"header revision 04 oem \"MPTAB   \" product \"BOARD       \" oemsize 0000 oemtable 00000000 local FEE00000 reserved 00\n",
        answer: Answer::Form(3),
    },
    Row {
        name: "no header",
        number: 3,
        line: b"",
        answer: Answer::Form(3),
    },
    Row {
        name: "two headers",
        number: 4,
        line: b"header revision 04 oem \"MPTAB   \" product \"BOARD       \" oemtable 00000000 oemsize 0000 local FEE00000 reserved 00\n",
        answer: Answer::Form(4),
    },
];

const QUOTED: &[Row] = &[
    Row {
        name: "a name is free text",
        number: 5,
        line: b"bus id AB name \"pci   \"\n",
        answer: Answer::Accepted,
    },
    Row {
        name: "all of it escaped",
        number: 5,
        line: b"bus id AB name \"\\x00\\x1F\\x7F\\x80\\xAF\\xFF\"\n",
        answer: Answer::Accepted,
    },
    Row {
        name: "an escape of a plain byte",
        number: 5,
        line: b"bus id AB name \"\\x41    \"\n",
        answer: Answer::Form(5),
    },
    Row {
        name: "an escape in lower case",
        number: 5,
        line: b"bus id AB name \"\\xaf     \"\n",
        answer: Answer::Form(5),
    },
    Row {
        name: "a capital X",
        number: 5,
        line: b"bus id AB name \"\\X1F     \"\n",
        answer: Answer::Form(5),
    },
    Row {
        name: "another escape",
        number: 5,
        line: b"bus id AB name \"\\\\     \"\n",
        answer: Answer::Form(5),
    },
    Row {
        name: "a quote inside",
        number: 5,
        line: b"bus id AB name \"a\"b   \"\n",
        answer: Answer::Form(5),
    },
    Row {
        name: "a byte of 1Fh as it is",
        number: 5,
        line: b"bus id AB name \"\x1F     \"\n",
        answer: Answer::Form(5),
    },
    Row {
        name: "a byte of 7Fh as it is",
        number: 5,
        line: b"bus id AB name \"\x7F     \"\n",
        answer: Answer::Form(5),
    },
    Row {
        name: "a byte of 80h as it is",
        number: 5,
        line: b"bus id AB name \"\x80     \"\n",
        answer: Answer::Form(5),
    },
    Row {
        name: "a line feed in quotes",
        number: 5,
        line: b"bus id AB name \"\n     \"\n",
        answer: Answer::Form(5),
    },
    Row {
        name: "no quote at the end",
        number: 5,
        line: b"bus id AB name \"PCI   \n",
        answer: Answer::Form(5),
    },
    Row {
        name: "no quotes",
        number: 5,
        line: b"bus id AB name PCI   \n",
        answer: Answer::Form(5),
    },
];

const ENTRIES: &[Row] = &[
    Row {
        name: "a tab",
        number: 4,
        line: b"processor id 1E version 14\tflags 82 signature DEADBEEF features 12345678 reserved 01020304A50607F8\n",
        answer: Answer::Form(4),
    },
    Row {
        name: "two spaces",
        number: 4,
        line: b"processor id 1E  version 14 flags 82 signature DEADBEEF features 12345678 reserved 01020304A50607F8\n",
        answer: Answer::Form(4),
    },
    Row {
        name: "a signature in lower case",
        number: 4,
        line: b"processor id 1E version 14 flags 82 signature deadbeef features 12345678 reserved 01020304A50607F8\n",
        answer: Answer::Form(4),
    },
    Row {
        name: "reserved bytes in lower case",
        number: 4,
        line: b"processor id 1E version 14 flags 82 signature DEADBEEF features 12345678 reserved 01020304a50607F8\n",
        answer: Answer::Form(4),
    },
    Row {
        name: "a processor without reserved bytes",
        number: 4,
        line: b"processor id 1E version 14 flags 82 signature DEADBEEF features 12345678\n",
        answer: Answer::Form(4),
    },
    Row {
        name: "a digit G",
        number: 6,
        line: b"ioapic id 08 version 11 flags 01 address FEC0100G\n",
        answer: Answer::Form(6),
    },
    Row {
        name: "a space at the end",
        number: 6,
        line: b"ioapic id 08 version 11 flags 01 address FEC01000 \n",
        answer: Answer::Form(6),
    },
    Row {
        name: "a space at the beginning",
        number: 6,
        line: b" ioapic id 08 version 11 flags 01 address FEC01000\n",
        answer: Answer::Form(6),
    },
    Row {
        name: "interrupt flags of two digits",
        number: 7,
        line: b"ioint kind 03 flags 0D bus 02 irq 4C dest FF pin 17\n",
        answer: Answer::Form(7),
    },
    Row {
        name: "a hexadecimal prefix",
        number: 7,
        line: b"ioint kind 0x flags 1F0D bus 02 irq 4C dest FF pin 17\n",
        answer: Answer::Form(7),
    },
    Row {
        name: "an unknown kind of line",
        number: 8,
        line: b"lint kind FE flags FFFF bus FD irq FC dest FB pin FA\n",
        answer: Answer::Form(8),
    },
    Row {
        name: "an entry less",
        number: 8,
        line: b"",
        answer: Answer::Accepted,
    },
    Row {
        name: "an extended entry before a base entry",
        number: 7,
        line: b"modifier bus 00 flags 81 ranges 80000001\n",
        answer: Answer::Form(8),
    },
    Row {
        name: "a base of fifteen digits",
        number: 9,
        line: b"space bus 01 kind 02 base FEDCBA987654321 length 8000000000001000\n",
        answer: Answer::Form(9),
    },
    Row {
        name: "a base entry behind an extended one",
        number: 10,
        line: b"bus id 00 name \"PCI   \"\n",
        answer: Answer::Form(10),
    },
    Row {
        name: "reserved bytes of a hierarchy that are two",
        number: 10,
        line: b"hierarchy bus 01 info 03 parent 02 reserved 00C0\n",
        answer: Answer::Form(10),
    },
    Row {
        name: "ranges in lower case",
        number: 11,
        line: b"modifier bus 00 flags 81 ranges 8000000a\n",
        answer: Answer::Form(11),
    },
    Row {
        name: "a comment",
        number: 11,
        line: b"# modifier\n",
        answer: Answer::Form(11),
    },
];

const OPAQUE: &[Row] = &[
    Row {
        name: "the type of an entry that isn't opaque",
        number: 12,
        line: b"opaque kind 82 rest -\n",
        answer: Answer::Form(12),
    },
    Row {
        name: "an opaque entry without bytes",
        number: 12,
        line: b"opaque kind C8 rest -\n",
        answer: Answer::Accepted,
    },
    Row {
        name: "a blank rest",
        number: 12,
        line: b"opaque kind 83 rest \n",
        answer: Answer::Form(12),
    },
    Row {
        name: "a dash and bytes",
        number: 12,
        line: b"opaque kind 83 rest -00\n",
        answer: Answer::Form(12),
    },
    Row {
        name: "two dashes",
        number: 12,
        line: b"opaque kind 83 rest --\n",
        answer: Answer::Form(12),
    },
    Row {
        name: "half a byte",
        number: 13,
        line: b"opaque kind FF rest 0FA02\n",
        answer: Answer::Form(13),
    },
    Row {
        name: "a rest in lower case",
        number: 13,
        line: b"opaque kind FF rest 0fa022\n",
        answer: Answer::Form(13),
    },
];

const ENDS: &[Row] = &[
    Row {
        name: "no line feed at the end",
        number: 28,
        line: b"end",
        answer: Answer::Form(28),
    },
    Row {
        name: "a carriage return at the end",
        number: 28,
        line: b"end\r\n",
        answer: Answer::Form(28),
    },
    Row {
        name: "no last line",
        number: 28,
        line: b"",
        answer: Answer::Early(28),
    },
    Row {
        name: "a second last line",
        number: 29,
        line: b"end\n",
        answer: Answer::Late(29),
    },
    Row {
        name: "an empty line behind the last",
        number: 29,
        line: b"\n",
        answer: Answer::Late(29),
    },
    Row {
        name: "a byte behind the last line",
        number: 29,
        line: b"e",
        answer: Answer::Late(29),
    },
    Row {
        name: "the last line before the last",
        number: 27,
        line: b"end\n",
        answer: Answer::Late(28),
    },
];

#[test]
fn lines_of_each_kind(rt: HostRuntime) {
    same_answers(&rt, rt.alloc(), every_form_text(), HEADS);
    same_answers(&rt, rt.alloc(), every_form_text(), QUOTED);
    same_answers(&rt, rt.alloc(), every_form_text(), ENTRIES);
    same_answers(&rt, rt.alloc(), every_form_text(), OPAQUE);
    same_answers(&rt, rt.alloc(), usual_board_text(), ENDS);
}
