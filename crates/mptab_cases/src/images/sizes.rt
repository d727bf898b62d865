//! Sizes that cut the words of the search, its areas, the pointer, the header, the base and the extended
//! part.

use crate::images::{Piece, Row, SMALL_POINTER as POINTER, WORD};

/// The table, directly after the pointer.
const AT: Piece = Piece::Table(0x510);

/// A size on both sides of each cut.
pub fn sizes() -> &'static [Row] {
    SIZES
}

const SIZES: &[Row] = &[
    Row {
        name: "the EBDA word is whole: it lies in the pointer itself",
        size: 1040,
        pieces: &[Piece::Bytes(0x400, 16, 0x5F4D505F_00000000_01045B05_00004000)],
        status: 0,
        text: "mptable 1
pointer at 00000400 table 00000000 revision 04 features 0500004000
end
",
    },
    Row {
        name: "the EBDA word is cut, and counts as 0",
        size: 1039,
        pieces: &[Piece::Bytes(0x400, 16, 0x5F4D505F_00000000_01045B05_00004000)],
        status: 6,
        text: "mptab: no floating pointer\n",
    },
    Row {
        name: "the base word is whole: 2 KiB",
        size: 1045,
        pieces: &[
            Piece::Bytes(0x400, 16, 0x5F4D505F_00000000_01049B05_00000000),
            Piece::Bytes(0x413, 2, 0x0200),
        ],
        status: 0,
        text: "mptable 1
pointer at 00000400 table 00000000 revision 04 features 0500000000
end
",
    },
    Row {
        name: "the base word is cut, and counts as 0",
        size: 1044,
        pieces: &[
            Piece::Bytes(0x400, 16, 0x5F4D505F_00000000_01049B05_00000000),
            Piece::Bytes(0x413, 2, 0x0200),
        ],
        status: 6,
        text: "mptab: no floating pointer\n",
    },
    Row {
        name: "the base word is not asked beside an EBDA word",
        size: 0x900,
        pieces: &[
            WORD,
            Piece::Bytes(0x420, 16, 0x5F4D505F_00000000_01049B05_00000000),
            Piece::Bytes(0x413, 2, 0x0200),
        ],
        status: 6,
        text: "mptab: no floating pointer\n",
    },
    Row {
        name: "1 KiB: the first kilobyte",
        size: 1045,
        pieces: &[
            Piece::Bytes(0x0, 16, 0x5F4D505F_00000000_01049B05_00000000),
            Piece::Bytes(0x413, 2, 0x0100),
        ],
        status: 0,
        text: "mptable 1
pointer at 00000000 table 00000000 revision 04 features 0500000000
end
",
    },
    Row {
        name: "the last place of the EBDA's kilobyte",
        size: 0x910,
        pieces: &[
            WORD,
            Piece::Bytes(0x8F0, 16, 0x5F4D505F_00000000_01049B05_00000000),
        ],
        status: 0,
        text: "mptable 1
pointer at 000008F0 table 00000000 revision 04 features 0500000000
end
",
    },
    Row {
        name: "a place behind the EBDA's kilobyte",
        size: 0x910,
        pieces: &[
            WORD,
            Piece::Bytes(0x900, 16, 0x5F4D505F_00000000_01049B05_00000000),
        ],
        status: 6,
        text: "mptab: no floating pointer\n",
    },
    Row {
        name: "a place before the EBDA",
        size: 0x910,
        pieces: &[
            WORD,
            Piece::Bytes(0x4F0, 16, 0x5F4D505F_00000000_01049B05_00000000),
        ],
        status: 6,
        text: "mptab: no floating pointer\n",
    },
    Row {
        name: "no place of a multiple of 16",
        size: 0x910,
        pieces: &[
            WORD,
            Piece::Bytes(0x508, 16, 0x5F4D505F_00000000_01049B05_00000000),
        ],
        status: 6,
        text: "mptab: no floating pointer\n",
    },
    Row {
        name: "the first of two places",
        size: 0x910,
        pieces: &[
            WORD,
            Piece::Bytes(0x510, 16, 0x5F4D505F_00000000_01049B05_00000000),
            Piece::Bytes(0x520, 16, 0x5F4D505F_00000000_01049A06_00000000),
        ],
        status: 0,
        text: "mptable 1
pointer at 00000510 table 00000000 revision 04 features 0500000000
end
",
    },
    Row {
        name: "the last area from its first place",
        size: 0xF0010,
        pieces: &[Piece::Bytes(0xF0000, 16, 0x5F4D505F_00000000_01049B05_00000000)],
        status: 0,
        text: "mptable 1
pointer at 000F0000 table 00000000 revision 04 features 0500000000
end
",
    },
    Row {
        name: "a place before the last area",
        size: 0x100000,
        pieces: &[Piece::Bytes(0xEFFF0, 16, 0x5F4D505F_00000000_01049B05_00000000)],
        status: 6,
        text: "mptab: no floating pointer\n",
    },
    Row {
        name: "a place behind the last area",
        size: 0x100010,
        pieces: &[Piece::Bytes(0x100000, 16, 0x5F4D505F_00000000_01049B05_00000000)],
        status: 6,
        text: "mptab: no floating pointer\n",
    },
    Row {
        name: "15 bytes of a pointer",
        size: 0x50F,
        pieces: &[
            WORD,
            Piece::Bytes(0x500, 16, 0x5F4D505F_00000000_01049B05_00000000),
        ],
        status: 6,
        text: "mptab: no floating pointer\n",
    },
    Row {
        name: "16 bytes of a pointer",
        size: 0x510,
        pieces: &[
            WORD,
            Piece::Bytes(0x500, 16, 0x5F4D505F_00000000_01049B05_00000000),
        ],
        status: 0,
        text: "mptable 1
pointer at 00000500 table 00000000 revision 04 features 0500000000
end
",
    },
    Row {
        name: "a pointer of length 2",
        size: 0x510,
        pieces: &[
            WORD,
            Piece::Bytes(0x500, 16, 0x5F4D505F_00000000_02049A05_00000000),
        ],
        status: 6,
        text: "mptab: no floating pointer\n",
    },
    Row {
        name: "a pointer of another signature",
        size: 0x510,
        pieces: &[
            WORD,
            Piece::Bytes(0x500, 16, 0x5F4D5020_00000000_0104DA05_00000000),
        ],
        status: 6,
        text: "mptab: no floating pointer\n",
    },
    Row {
        name: "the address and not a byte of the header",
        size: 0x510,
        pieces: &[WORD, POINTER, AT],
        status: 7,
        text: "mptab: fault 4 TableOutside at 00000504\n",
    },
    Row {
        name: "43 bytes of the header",
        size: 0x53B,
        pieces: &[WORD, POINTER, AT],
        status: 7,
        text: "mptab: fault 4 TableOutside at 00000504\n",
    },
    Row {
        name: "the header, and nothing of the base behind it",
        size: 0x53C,
        pieces: &[WORD, POINTER, AT],
        status: 7,
        text: "mptab: fault 7 LengthOutside at 00000514\n",
    },
    Row {
        name: "all bytes of the base but the last",
        size: 0x54F,
        pieces: &[WORD, POINTER, AT],
        status: 7,
        text: "mptab: fault 7 LengthOutside at 00000514\n",
    },
    Row {
        name: "the whole base",
        size: 0x550,
        pieces: &[WORD, POINTER, AT],
        status: 0,
        text: "mptable 1
pointer at 00000500 table 00000510 revision 04 features 0000000000
header revision 04 oem \"MPTAB   \" product \"BOARD       \" oemtable 00000000 oemsize 0000 local FEE00000 reserved 00
processor id 00 version 10 flags 03 signature 00000520 features 000001BF reserved 0000000000000000
end
",
    },
    Row {
        name: "the base and nothing of the extended part",
        size: 0x550,
        pieces: &[
            WORD,
            POINTER,
            AT,
            Piece::Bytes(0x538, 3, 0x020036),
            Piece::Bytes(0x517, 1, 0x61),
            Piece::Bytes(0x550, 2, 0xC802),
        ],
        status: 7,
        text: "mptab: fault 12 ExtOutside at 00000538\n",
    },
    Row {
        name: "all bytes of the extended part but the last",
        size: 0x551,
        pieces: &[
            WORD,
            POINTER,
            AT,
            Piece::Bytes(0x538, 3, 0x020036),
            Piece::Bytes(0x517, 1, 0x61),
            Piece::Bytes(0x550, 2, 0xC802),
        ],
        status: 7,
        text: "mptab: fault 12 ExtOutside at 00000538\n",
    },
    Row {
        name: "the whole extended part",
        size: 0x552,
        pieces: &[
            WORD,
            POINTER,
            AT,
            Piece::Bytes(0x538, 3, 0x020036),
            Piece::Bytes(0x517, 1, 0x61),
            Piece::Bytes(0x550, 2, 0xC802),
        ],
        status: 0,
        text: "mptable 1
pointer at 00000500 table 00000510 revision 04 features 0000000000
header revision 04 oem \"MPTAB   \" product \"BOARD       \" oemtable 00000000 oemsize 0000 local FEE00000 reserved 00
processor id 00 version 10 flags 03 signature 00000520 features 000001BF reserved 0000000000000000
opaque kind C8 rest -
end
",
    },
    Row {
        name: "a table above 1 MiB",
        size: 0x100040,
        pieces: &[
            Piece::Bytes(0xF0000, 16, 0x5F4D505F_00001000_01049000_00000000),
            Piece::Table(0x100000),
        ],
        status: 0,
        text: "mptable 1
pointer at 000F0000 table 00100000 revision 04 features 0000000000
header revision 04 oem \"MPTAB   \" product \"BOARD       \" oemtable 00000000 oemsize 0000 local FEE00000 reserved 00
processor id 00 version 10 flags 03 signature 00000520 features 000001BF reserved 0000000000000000
end
",
    },
];
