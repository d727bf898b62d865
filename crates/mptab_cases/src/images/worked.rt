//! Whole images and their answers: the worked rows of the format, and hostile images.

use crate::images::{POINTER, Piece, Row};

/// The length of most images.
const MIB: usize = 0x100000;

/// The table, directly after the pointer.
const AT: Piece = Piece::Table(0xF0010);

/// Images whose listings were worked out by hand.
pub fn worked() -> &'static [Row] {
    WORKED
}

const WORKED: &[Row] = &[
    Row {
        name: "a board with one processor",
        size: MIB,
        pieces: &[POINTER, AT],
        status: 0,
        text: "mptable 1
pointer at 000F0000 table 000F0010 revision 04 features 0000000000
header revision 04 oem \"MPTAB   \" product \"BOARD       \" oemtable 00000000 oemsize 0000 local FEE00000 reserved 00
processor id 00 version 10 flags 03 signature 00000520 features 000001BF reserved 0000000000000000
end
",
    },
    Row {
        name: "the same board in an image of 1,360 bytes, named by the EBDA word",
        size: 1360,
        pieces: &[
            Piece::Bytes(0x40E, 2, 0x5000),
            Piece::Bytes(0x500, 16, 0x5F4D505F_10050000_01048B00_00000000),
            Piece::Table(0x510),
        ],
        status: 0,
        text: "mptable 1
pointer at 00000500 table 00000510 revision 04 features 0000000000
header revision 04 oem \"MPTAB   \" product \"BOARD       \" oemtable 00000000 oemsize 0000 local FEE00000 reserved 00
processor id 00 version 10 flags 03 signature 00000520 features 000001BF reserved 0000000000000000
end
",
    },
    Row {
        name: "no bytes",
        size: 0,
        pieces: &[],
        status: 6,
        text: "mptab: no floating pointer\n",
    },
    Row {
        name: "the pointer that the EBDA word names is taken before that in the last area",
        size: MIB,
        pieces: &[
            POINTER,
            AT,
            Piece::Bytes(0x40E, 2, 0xC09F),
            Piece::Bytes(0x9FC00, 16, 0x5F4D505F_00000000_01049B05_00000000),
        ],
        status: 0,
        text: "mptable 1
pointer at 0009FC00 table 00000000 revision 04 features 0500000000
end
",
    },
    Row {
        name: "a pointer whose sum is wrong is passed over",
        size: MIB,
        pieces: &[
            Piece::Bytes(0xF0000, 16, 0x5F4D505F_10000F00_01048000_00000000),
            Piece::Bytes(0xF0100, 16, 0x5F4D505F_00020F00_01048F00_00000000),
            Piece::Table(0xF0200),
        ],
        status: 0,
        text: "mptable 1
pointer at 000F0100 table 000F0200 revision 04 features 0000000000
header revision 04 oem \"MPTAB   \" product \"BOARD       \" oemtable 00000000 oemsize 0000 local FEE00000 reserved 00
processor id 00 version 10 flags 03 signature 00000520 features 000001BF reserved 0000000000000000
end
",
    },
    Row {
        name: "default configuration 8",
        size: MIB,
        pieces: &[Piece::Bytes(0xF0000, 16, 0x5F4D505F_00000000_01049808_00000000)],
        status: 7,
        text: "mptab: fault 2 BadDefault at 000F000B\n",
    },
    Row {
        name: "no default configuration and no address",
        size: MIB,
        pieces: &[Piece::Bytes(0xF0000, 16, 0x5F4D505F_00000000_0104A000_00000000)],
        status: 7,
        text: "mptab: fault 3 NoTable at 000F0004\n",
    },
    Row {
        name: "base length 43: the sum is not looked at",
        size: MIB,
        pieces: &[POINTER, AT, Piece::Bytes(0xF0014, 2, 0x2B00)],
        status: 7,
        text: "mptab: fault 6 ShortLength at 000F0014\n",
    },
    Row {
        name: "base length 63 cuts the processor",
        size: MIB,
        pieces: &[
            POINTER,
            AT,
            Piece::Bytes(0xF0014, 2, 0x3F00),
            Piece::Bytes(0xF0017, 1, 0x9A),
        ],
        status: 7,
        text: "mptab: fault 11 CutEntry at 000F003C\n",
    },
    Row {
        name: "count 2",
        size: MIB,
        pieces: &[
            POINTER,
            AT,
            Piece::Bytes(0xF0032, 1, 0x02),
            Piece::Bytes(0xF0017, 1, 0x98),
        ],
        status: 7,
        text: "mptab: fault 9 BadCount at 000F0032\n",
    },
    Row {
        name: "the checksum alone is wrong",
        size: MIB,
        pieces: &[POINTER, AT, Piece::Bytes(0xF0017, 1, 0x9A)],
        status: 7,
        text: "mptab: fault 8 BadSum at 000F0017\n",
    },
    Row {
        name: "entry type 5",
        size: MIB,
        pieces: &[
            POINTER,
            AT,
            Piece::Bytes(0xF003C, 1, 0x05),
            Piece::Bytes(0xF0017, 1, 0x94),
        ],
        status: 7,
        text: "mptab: fault 10 UnknownEntry at 000F003C\n",
    },
    Row {
        name: "extended entry type 7Fh",
        size: MIB,
        pieces: &[
            POINTER,
            AT,
            Piece::Bytes(0xF0038, 3, 0x02007F),
            Piece::Bytes(0xF0017, 1, 0x18),
            Piece::Bytes(0xF0050, 2, 0x7F02),
        ],
        status: 7,
        text: "mptab: fault 14 BadExtType at 000F0050\n",
    },
    Row {
        name: "an opaque entry without further bytes",
        size: MIB,
        pieces: &[
            POINTER,
            AT,
            Piece::Bytes(0xF0038, 3, 0x020036),
            Piece::Bytes(0xF0017, 1, 0x61),
            Piece::Bytes(0xF0050, 2, 0xC802),
        ],
        status: 0,
        text: "mptable 1
pointer at 000F0000 table 000F0010 revision 04 features 0000000000
header revision 04 oem \"MPTAB   \" product \"BOARD       \" oemtable 00000000 oemsize 0000 local FEE00000 reserved 00
processor id 00 version 10 flags 03 signature 00000520 features 000001BF reserved 0000000000000000
opaque kind C8 rest -
end
",
    },
    Row {
        name: "one byte of an extended entry",
        size: MIB,
        pieces: &[
            POINTER,
            AT,
            Piece::Bytes(0xF0038, 3, 0x010038),
            Piece::Bytes(0xF0017, 1, 0x60),
            Piece::Bytes(0xF0050, 1, 0xC8),
        ],
        status: 7,
        text: "mptab: fault 16 CutExtEntry at 000F0050\n",
    },
    Row {
        name: "base length 43 stands before the revision 2",
        size: MIB,
        pieces: &[
            POINTER,
            AT,
            Piece::Bytes(0xF0014, 2, 0x2B00),
            Piece::Bytes(0xF0016, 1, 0x02),
        ],
        status: 7,
        text: "mptab: fault 6 ShortLength at 000F0014\n",
    },
    Row {
        name: "revision 2 stands before the checksum 00h",
        size: MIB,
        pieces: &[POINTER, AT, Piece::Bytes(0xF0016, 2, 0x0200)],
        status: 7,
        text: "mptab: fault 1 BadRevision at 000F0016\n",
    },
    Row {
        name: "an image of 16 MiB is within the limit",
        size: 0x1000000,
        pieces: &[POINTER, AT],
        status: 0,
        text: "mptable 1
pointer at 000F0000 table 000F0010 revision 04 features 0000000000
header revision 04 oem \"MPTAB   \" product \"BOARD       \" oemtable 00000000 oemsize 0000 local FEE00000 reserved 00
processor id 00 version 10 flags 03 signature 00000520 features 000001BF reserved 0000000000000000
end
",
    },
    Row {
        name: "an image of one byte more is too large",
        size: 0x1000001,
        pieces: &[POINTER, AT],
        status: 10,
        text: "mptab: too large board.img 16777217\n",
    },
];

/// Images that were made to mislead.
pub fn hostile() -> &'static [Row] {
    HOSTILE
}

const HOSTILE: &[Row] = &[
    Row {
        name: "a pointer at the last place",
        size: MIB,
        pieces: &[Piece::Bytes(0xFFFF0, 16, 0x5F4D505F_00000000_01049B05_00000000)],
        status: 0,
        text: "mptable 1
pointer at 000FFFF0 table 00000000 revision 04 features 0500000000
end
",
    },
    Row {
        name: "the image cuts a pointer at the last place",
        size: 0xFFFF8,
        pieces: &[Piece::Bytes(0xFFFF0, 16, 0x5F4D505F_00000000_01049B05_00000000)],
        status: 6,
        text: "mptab: no floating pointer\n",
    },
    Row {
        name: "the greatest EBDA word: its area is cut at the image",
        size: MIB,
        pieces: &[
            Piece::Bytes(0xFFFF0, 16, 0x5F4D505F_00000000_01049B05_00000000),
            Piece::Bytes(0x40E, 2, 0xFFFF),
        ],
        status: 0,
        text: "mptable 1
pointer at 000FFFF0 table 00000000 revision 04 features 0500000000
end
",
    },
    Row {
        name: "the last place below 640 KiB",
        size: MIB,
        pieces: &[
            Piece::Bytes(0x9FFF0, 16, 0x5F4D505F_00000000_01049B05_00000000),
            Piece::Bytes(0x413, 2, 0x8002),
        ],
        status: 0,
        text: "mptable 1
pointer at 0009FFF0 table 00000000 revision 04 features 0500000000
end
",
    },
    Row {
        name: "641 KiB: the kilobyte above",
        size: MIB,
        pieces: &[
            Piece::Bytes(0x9FFF0, 16, 0x5F4D505F_00000000_01049B05_00000000),
            Piece::Bytes(0x413, 2, 0x8102),
        ],
        status: 6,
        text: "mptab: no floating pointer\n",
    },
    Row {
        name: "the greatest address",
        size: MIB,
        pieces: &[Piece::Bytes(0xF0000, 16, 0x5F4D505F_FFFFFFFF_0104A400_00000000)],
        status: 7,
        text: "mptab: fault 4 TableOutside at 000F0004\n",
    },
    Row {
        name: "base length FFFFh",
        size: MIB,
        pieces: &[POINTER, AT, Piece::Bytes(0xF0014, 2, 0xFFFF)],
        status: 7,
        text: "mptab: fault 7 LengthOutside at 000F0014\n",
    },
    Row {
        name: "extended length FFFFh",
        size: MIB,
        pieces: &[
            POINTER,
            AT,
            Piece::Bytes(0xF0038, 2, 0xFFFF),
            Piece::Bytes(0xF0017, 1, 0x9B),
        ],
        status: 7,
        text: "mptab: fault 12 ExtOutside at 000F0038\n",
    },
    Row {
        name: "a zero signature",
        size: MIB,
        pieces: &[POINTER, AT, Piece::Bytes(0xF0010, 4, 0x00000000)],
        status: 7,
        text: "mptab: fault 5 BadSignature at 000F0010\n",
    },
];
