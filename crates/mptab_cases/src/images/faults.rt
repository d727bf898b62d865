//! The sixteen faults, one image for each and more, and which of two faults is named.

use crate::images::{Piece, Row, SMALL_POINTER as POINTER, WORD};

/// The length of most images: the table ends there.
const SMALL: usize = 0x550;

/// The table, directly after the pointer.
const AT: Piece = Piece::Table(0x510);

/// Each of the sixteen faults.
pub fn reasons() -> &'static [Row] {
    REASONS
}

const REASONS: &[Row] = &[
    Row {
        name: "the pointer's revision is 2",
        size: SMALL,
        pieces: &[
            WORD,
            Piece::Bytes(0x500, 16, 0x5F4D505F_10050000_01028D00_00000000),
            AT,
        ],
        status: 7,
        text: "mptab: fault 1 BadRevision at 00000509\n",
    },
    Row {
        name: "the table's revision is 2",
        size: SMALL,
        pieces: &[WORD, POINTER, AT, Piece::Bytes(0x516, 1, 0x02)],
        status: 7,
        text: "mptab: fault 1 BadRevision at 00000516\n",
    },
    Row {
        name: "default configuration 8",
        size: SMALL,
        pieces: &[
            WORD,
            Piece::Bytes(0x500, 16, 0x5F4D505F_10050000_01048308_00000000),
            AT,
        ],
        status: 7,
        text: "mptab: fault 2 BadDefault at 0000050B\n",
    },
    Row {
        name: "no address",
        size: SMALL,
        pieces: &[
            WORD,
            Piece::Bytes(0x500, 16, 0x5F4D505F_00000000_0104A000_00000000),
            AT,
        ],
        status: 7,
        text: "mptab: fault 3 NoTable at 00000504\n",
    },
    Row {
        name: "43 bytes of the image are left for a header",
        size: SMALL,
        pieces: &[
            WORD,
            Piece::Bytes(0x500, 16, 0x5F4D505F_25050000_01047600_00000000),
            AT,
        ],
        status: 7,
        text: "mptab: fault 4 TableOutside at 00000504\n",
    },
    Row {
        name: "44 bytes of the image are left, and are no header",
        size: SMALL,
        pieces: &[
            WORD,
            Piece::Bytes(0x500, 16, 0x5F4D505F_24050000_01047700_00000000),
            AT,
        ],
        status: 7,
        text: "mptab: fault 5 BadSignature at 00000524\n",
    },
    Row {
        name: "the last letter of the signature is small",
        size: SMALL,
        pieces: &[WORD, POINTER, AT, Piece::Bytes(0x513, 1, 0x70)],
        status: 7,
        text: "mptab: fault 5 BadSignature at 00000510\n",
    },
    Row {
        name: "base length 43",
        size: SMALL,
        pieces: &[WORD, POINTER, AT, Piece::Bytes(0x514, 1, 0x2B)],
        status: 7,
        text: "mptab: fault 6 ShortLength at 00000514\n",
    },
    Row {
        name: "base length 0",
        size: SMALL,
        pieces: &[WORD, POINTER, AT, Piece::Bytes(0x514, 1, 0x00)],
        status: 7,
        text: "mptab: fault 6 ShortLength at 00000514\n",
    },
    Row {
        name: "base length 65 passes the image",
        size: SMALL,
        pieces: &[WORD, POINTER, AT, Piece::Bytes(0x514, 1, 0x41)],
        status: 7,
        text: "mptab: fault 7 LengthOutside at 00000514\n",
    },
    Row {
        name: "the sum of the base is 1",
        size: SMALL,
        pieces: &[WORD, POINTER, AT, Piece::Bytes(0x517, 1, 0x9A)],
        status: 7,
        text: "mptab: fault 8 BadSum at 00000517\n",
    },
    Row {
        name: "count 0",
        size: SMALL,
        pieces: &[
            WORD,
            POINTER,
            AT,
            Piece::Bytes(0x532, 1, 0x00),
            Piece::Bytes(0x517, 1, 0x9A),
        ],
        status: 7,
        text: "mptab: fault 9 BadCount at 00000532\n",
    },
    Row {
        name: "count 257: both bytes count",
        size: SMALL,
        pieces: &[
            WORD,
            POINTER,
            AT,
            Piece::Bytes(0x533, 1, 0x01),
            Piece::Bytes(0x517, 1, 0x98),
        ],
        status: 7,
        text: "mptab: fault 9 BadCount at 00000532\n",
    },
    Row {
        name: "entry type 5",
        size: SMALL,
        pieces: &[
            WORD,
            POINTER,
            AT,
            Piece::Bytes(0x53C, 1, 0x05),
            Piece::Bytes(0x517, 1, 0x94),
        ],
        status: 7,
        text: "mptab: fault 10 UnknownEntry at 0000053C\n",
    },
    Row {
        name: "entry type 80h is no base entry",
        size: SMALL,
        pieces: &[
            WORD,
            POINTER,
            AT,
            Piece::Bytes(0x53C, 1, 0x80),
            Piece::Bytes(0x517, 1, 0x19),
        ],
        status: 7,
        text: "mptab: fault 10 UnknownEntry at 0000053C\n",
    },
    Row {
        name: "base length 63 cuts the processor",
        size: SMALL,
        pieces: &[
            WORD,
            POINTER,
            AT,
            Piece::Bytes(0x514, 1, 0x3F),
            Piece::Bytes(0x517, 1, 0x9A),
        ],
        status: 7,
        text: "mptab: fault 11 CutEntry at 0000053C\n",
    },
    Row {
        name: "extended length 1 passes the image",
        size: SMALL,
        pieces: &[
            WORD,
            POINTER,
            AT,
            Piece::Bytes(0x538, 1, 0x01),
            Piece::Bytes(0x517, 1, 0x98),
        ],
        status: 7,
        text: "mptab: fault 12 ExtOutside at 00000538\n",
    },
    Row {
        name: "the extended checksum is 0",
        size: 0x552,
        pieces: &[
            WORD,
            POINTER,
            AT,
            Piece::Bytes(0x538, 3, 0x020000),
            Piece::Bytes(0x517, 1, 0x97),
            Piece::Bytes(0x550, 2, 0xC802),
        ],
        status: 7,
        text: "mptab: fault 13 BadExtSum at 0000053A\n",
    },
    Row {
        name: "the extended checksum is 1 and the extended part is empty",
        size: SMALL,
        pieces: &[
            WORD,
            POINTER,
            AT,
            Piece::Bytes(0x53A, 1, 0x01),
            Piece::Bytes(0x517, 1, 0x98),
        ],
        status: 7,
        text: "mptab: fault 13 BadExtSum at 0000053A\n",
    },
    Row {
        name: "extended entry type 7Fh",
        size: 0x552,
        pieces: &[
            WORD,
            POINTER,
            AT,
            Piece::Bytes(0x538, 3, 0x02007F),
            Piece::Bytes(0x517, 1, 0x18),
            Piece::Bytes(0x550, 2, 0x7F02),
        ],
        status: 7,
        text: "mptab: fault 14 BadExtType at 00000550\n",
    },
    Row {
        name: "extended entry length 1",
        size: 0x552,
        pieces: &[
            WORD,
            POINTER,
            AT,
            Piece::Bytes(0x538, 3, 0x020037),
            Piece::Bytes(0x517, 1, 0x60),
            Piece::Bytes(0x550, 2, 0xC801),
        ],
        status: 7,
        text: "mptab: fault 15 BadExtLength at 00000551\n",
    },
    Row {
        name: "one byte of an extended entry",
        size: 0x551,
        pieces: &[
            WORD,
            POINTER,
            AT,
            Piece::Bytes(0x538, 3, 0x010038),
            Piece::Bytes(0x517, 1, 0x60),
            Piece::Bytes(0x550, 1, 0xC8),
        ],
        status: 7,
        text: "mptab: fault 16 CutExtEntry at 00000550\n",
    },
];

/// Images with two faults.
pub fn pairs() -> &'static [Row] {
    PAIRS
}

const PAIRS: &[Row] = &[
    Row {
        name: "pointer: revision before default",
        size: SMALL,
        pieces: &[
            WORD,
            Piece::Bytes(0x500, 16, 0x5F4D505F_10050000_01028508_00000000),
            AT,
        ],
        status: 7,
        text: "mptab: fault 1 BadRevision at 00000509\n",
    },
    Row {
        name: "pointer: missing table before revision",
        size: SMALL,
        pieces: &[
            WORD,
            Piece::Bytes(0x500, 16, 0x5F4D505F_00000000_0102A200_00000000),
            AT,
        ],
        status: 7,
        text: "mptab: fault 3 NoTable at 00000504\n",
    },
    Row {
        name: "pointer: table outside before revision",
        size: SMALL,
        pieces: &[
            WORD,
            Piece::Bytes(0x500, 16, 0x5F4D505F_25050000_01027800_00000000),
            AT,
        ],
        status: 7,
        text: "mptab: fault 4 TableOutside at 00000504\n",
    },
    Row {
        name: "no address is no fault beside default configuration 8",
        size: SMALL,
        pieces: &[
            WORD,
            Piece::Bytes(0x500, 16, 0x5F4D505F_00000000_01049808_00000000),
            AT,
        ],
        status: 7,
        text: "mptab: fault 2 BadDefault at 0000050B\n",
    },
    Row {
        name: "an address outside is no fault beside default configuration 8",
        size: SMALL,
        pieces: &[
            WORD,
            Piece::Bytes(0x500, 16, 0x5F4D505F_25050000_01046E08_00000000),
            AT,
        ],
        status: 7,
        text: "mptab: fault 2 BadDefault at 0000050B\n",
    },
    Row {
        name: "a faulty table is not asked beside default configuration 7",
        size: SMALL,
        pieces: &[
            WORD,
            Piece::Bytes(0x500, 16, 0x5F4D505F_10050000_01048407_00000000),
        ],
        status: 0,
        text: "mptable 1
pointer at 00000500 table 00000510 revision 04 features 0700000000
end
",
    },
    Row {
        name: "a table below its pointer",
        size: SMALL,
        pieces: &[
            WORD,
            Piece::Bytes(0x500, 16, 0x5F4D505F_50040000_01044C00_00000000),
            Piece::Table(0x450),
        ],
        status: 0,
        text: "mptable 1
pointer at 00000500 table 00000450 revision 04 features 0000000000
header revision 04 oem \"MPTAB   \" product \"BOARD       \" oemtable 00000000 oemsize 0000 local FEE00000 reserved 00
processor id 00 version 10 flags 03 signature 00000520 features 000001BF reserved 0000000000000000
end
",
    },
    Row {
        name: "the pointer's revision stands before a signature at a lower offset",
        size: SMALL,
        pieces: &[
            WORD,
            Piece::Bytes(0x500, 16, 0x5F4D505F_50040000_01024E00_00000000),
        ],
        status: 7,
        text: "mptab: fault 1 BadRevision at 00000509\n",
    },
    Row {
        name: "a signature below its pointer",
        size: SMALL,
        pieces: &[
            WORD,
            Piece::Bytes(0x500, 16, 0x5F4D505F_50040000_01044C00_00000000),
        ],
        status: 7,
        text: "mptab: fault 5 BadSignature at 00000450\n",
    },
    Row {
        name: "signature before length",
        size: SMALL,
        pieces: &[
            WORD,
            POINTER,
            AT,
            Piece::Bytes(0x510, 1, 0x00),
            Piece::Bytes(0x514, 1, 0x2B),
        ],
        status: 7,
        text: "mptab: fault 5 BadSignature at 00000510\n",
    },
    Row {
        name: "length outside before revision",
        size: SMALL,
        pieces: &[WORD, POINTER, AT, Piece::Bytes(0x514, 3, 0x410002)],
        status: 7,
        text: "mptab: fault 7 LengthOutside at 00000514\n",
    },
    Row {
        name: "short length before revision",
        size: SMALL,
        pieces: &[WORD, POINTER, AT, Piece::Bytes(0x514, 3, 0x2B0002)],
        status: 7,
        text: "mptab: fault 6 ShortLength at 00000514\n",
    },
    Row {
        name: "revision before sum",
        size: SMALL,
        pieces: &[WORD, POINTER, AT, Piece::Bytes(0x516, 2, 0x0200)],
        status: 7,
        text: "mptab: fault 1 BadRevision at 00000516\n",
    },
    Row {
        name: "sum before count",
        size: SMALL,
        pieces: &[WORD, POINTER, AT, Piece::Bytes(0x532, 1, 0x02)],
        status: 7,
        text: "mptab: fault 8 BadSum at 00000517\n",
    },
    Row {
        name: "sum before an unknown entry",
        size: SMALL,
        pieces: &[WORD, POINTER, AT, Piece::Bytes(0x53C, 1, 0x05)],
        status: 7,
        text: "mptab: fault 8 BadSum at 00000517\n",
    },
    Row {
        name: "a count is no fault where the entries are none",
        size: SMALL,
        pieces: &[
            WORD,
            POINTER,
            AT,
            Piece::Bytes(0x532, 1, 0x02),
            Piece::Bytes(0x53C, 1, 0x05),
            Piece::Bytes(0x517, 1, 0x93),
        ],
        status: 7,
        text: "mptab: fault 10 UnknownEntry at 0000053C\n",
    },
    Row {
        name: "a count is no fault where an entry is cut",
        size: SMALL,
        pieces: &[
            WORD,
            POINTER,
            AT,
            Piece::Bytes(0x532, 1, 0x02),
            Piece::Bytes(0x514, 1, 0x3F),
            Piece::Bytes(0x517, 1, 0x99),
        ],
        status: 7,
        text: "mptab: fault 11 CutEntry at 0000053C\n",
    },
    Row {
        name: "count before an extended part outside",
        size: SMALL,
        pieces: &[
            WORD,
            POINTER,
            AT,
            Piece::Bytes(0x532, 1, 0x02),
            Piece::Bytes(0x538, 1, 0x01),
            Piece::Bytes(0x517, 1, 0x97),
        ],
        status: 7,
        text: "mptab: fault 9 BadCount at 00000532\n",
    },
    Row {
        name: "count before the extended sum",
        size: 0x552,
        pieces: &[
            WORD,
            POINTER,
            AT,
            Piece::Bytes(0x532, 1, 0x02),
            Piece::Bytes(0x538, 3, 0x020000),
            Piece::Bytes(0x517, 1, 0x96),
            Piece::Bytes(0x550, 2, 0xC802),
        ],
        status: 7,
        text: "mptab: fault 9 BadCount at 00000532\n",
    },
    Row {
        name: "an extended part outside before an unknown entry",
        size: SMALL,
        pieces: &[
            WORD,
            POINTER,
            AT,
            Piece::Bytes(0x538, 1, 0x01),
            Piece::Bytes(0x53C, 1, 0x05),
            Piece::Bytes(0x517, 1, 0x93),
        ],
        status: 7,
        text: "mptab: fault 12 ExtOutside at 00000538\n",
    },
    Row {
        name: "an extended part outside before a cut entry",
        size: SMALL,
        pieces: &[
            WORD,
            POINTER,
            AT,
            Piece::Bytes(0x514, 1, 0x3F),
            Piece::Bytes(0x538, 1, 0x02),
            Piece::Bytes(0x517, 1, 0x98),
        ],
        status: 7,
        text: "mptab: fault 12 ExtOutside at 00000538\n",
    },
    Row {
        name: "the extended sum before an unknown entry",
        size: 0x552,
        pieces: &[
            WORD,
            POINTER,
            AT,
            Piece::Bytes(0x538, 3, 0x020000),
            Piece::Bytes(0x53C, 1, 0x05),
            Piece::Bytes(0x517, 1, 0x92),
            Piece::Bytes(0x550, 2, 0xC802),
        ],
        status: 7,
        text: "mptab: fault 13 BadExtSum at 0000053A\n",
    },
    Row {
        name: "the extended sum before an extended type",
        size: 0x552,
        pieces: &[
            WORD,
            POINTER,
            AT,
            Piece::Bytes(0x538, 3, 0x020000),
            Piece::Bytes(0x517, 1, 0x97),
            Piece::Bytes(0x550, 2, 0x7F02),
        ],
        status: 7,
        text: "mptab: fault 13 BadExtSum at 0000053A\n",
    },
    Row {
        name: "an unknown entry before an extended type",
        size: 0x552,
        pieces: &[
            WORD,
            POINTER,
            AT,
            Piece::Bytes(0x538, 3, 0x02007F),
            Piece::Bytes(0x53C, 1, 0x05),
            Piece::Bytes(0x517, 1, 0x13),
            Piece::Bytes(0x550, 2, 0x7F02),
        ],
        status: 7,
        text: "mptab: fault 10 UnknownEntry at 0000053C\n",
    },
    Row {
        name: "a cut entry before an extended type",
        size: 0x551,
        pieces: &[
            WORD,
            POINTER,
            AT,
            Piece::Bytes(0x514, 1, 0x3F),
            Piece::Bytes(0x538, 3, 0x02007F),
            Piece::Bytes(0x517, 1, 0x19),
            Piece::Bytes(0x54F, 2, 0x7F02),
        ],
        status: 7,
        text: "mptab: fault 11 CutEntry at 0000053C\n",
    },
    Row {
        name: "an unknown entry behind a whole one",
        size: 0x552,
        pieces: &[
            WORD,
            POINTER,
            AT,
            Piece::Bytes(0x514, 1, 0x42),
            Piece::Bytes(0x550, 2, 0x0501),
            Piece::Bytes(0x517, 1, 0x91),
        ],
        status: 7,
        text: "mptab: fault 10 UnknownEntry at 00000550\n",
    },
    Row {
        name: "an extended length before a later extended type",
        size: 0x553,
        pieces: &[
            WORD,
            POINTER,
            AT,
            Piece::Bytes(0x538, 3, 0x0300B8),
            Piece::Bytes(0x517, 1, 0xDE),
            Piece::Bytes(0x550, 3, 0xC8017F),
        ],
        status: 7,
        text: "mptab: fault 15 BadExtLength at 00000551\n",
    },
];

/// Numbers of default configurations.
pub fn defaults() -> &'static [Row] {
    DEFAULTS
}

const DEFAULTS: &[Row] = &[
    Row {
        name: "default configuration 0 and no address",
        size: SMALL,
        pieces: &[
            WORD,
            Piece::Bytes(0x500, 16, 0x5F4D505F_00000000_0104A000_00000000),
        ],
        status: 7,
        text: "mptab: fault 3 NoTable at 00000504\n",
    },
    Row {
        name: "default configuration 1 and no address",
        size: SMALL,
        pieces: &[
            WORD,
            Piece::Bytes(0x500, 16, 0x5F4D505F_00000000_01049F01_00000000),
        ],
        status: 0,
        text: "mptable 1
pointer at 00000500 table 00000000 revision 04 features 0100000000
end
",
    },
    Row {
        name: "default configuration 2 and no address",
        size: SMALL,
        pieces: &[
            WORD,
            Piece::Bytes(0x500, 16, 0x5F4D505F_00000000_01049E02_00000000),
        ],
        status: 0,
        text: "mptable 1
pointer at 00000500 table 00000000 revision 04 features 0200000000
end
",
    },
    Row {
        name: "default configuration 3 and no address",
        size: SMALL,
        pieces: &[
            WORD,
            Piece::Bytes(0x500, 16, 0x5F4D505F_00000000_01049D03_00000000),
        ],
        status: 0,
        text: "mptable 1
pointer at 00000500 table 00000000 revision 04 features 0300000000
end
",
    },
    Row {
        name: "default configuration 4 and no address",
        size: SMALL,
        pieces: &[
            WORD,
            Piece::Bytes(0x500, 16, 0x5F4D505F_00000000_01049C04_00000000),
        ],
        status: 0,
        text: "mptable 1
pointer at 00000500 table 00000000 revision 04 features 0400000000
end
",
    },
    Row {
        name: "default configuration 5 and no address",
        size: SMALL,
        pieces: &[
            WORD,
            Piece::Bytes(0x500, 16, 0x5F4D505F_00000000_01049B05_00000000),
        ],
        status: 0,
        text: "mptable 1
pointer at 00000500 table 00000000 revision 04 features 0500000000
end
",
    },
    Row {
        name: "default configuration 6 and no address",
        size: SMALL,
        pieces: &[
            WORD,
            Piece::Bytes(0x500, 16, 0x5F4D505F_00000000_01049A06_00000000),
        ],
        status: 0,
        text: "mptable 1
pointer at 00000500 table 00000000 revision 04 features 0600000000
end
",
    },
    Row {
        name: "default configuration 7 and no address",
        size: SMALL,
        pieces: &[
            WORD,
            Piece::Bytes(0x500, 16, 0x5F4D505F_00000000_01049907_00000000),
        ],
        status: 0,
        text: "mptable 1
pointer at 00000500 table 00000000 revision 04 features 0700000000
end
",
    },
    Row {
        name: "default configuration 8 and no address",
        size: SMALL,
        pieces: &[
            WORD,
            Piece::Bytes(0x500, 16, 0x5F4D505F_00000000_01049808_00000000),
        ],
        status: 7,
        text: "mptab: fault 2 BadDefault at 0000050B\n",
    },
    Row {
        name: "default configuration 128 and no address",
        size: SMALL,
        pieces: &[
            WORD,
            Piece::Bytes(0x500, 16, 0x5F4D505F_00000000_01042080_00000000),
        ],
        status: 7,
        text: "mptab: fault 2 BadDefault at 0000050B\n",
    },
    Row {
        name: "default configuration 255 and no address",
        size: SMALL,
        pieces: &[
            WORD,
            Piece::Bytes(0x500, 16, 0x5F4D505F_00000000_0104A1FF_00000000),
        ],
        status: 7,
        text: "mptab: fault 2 BadDefault at 0000050B\n",
    },
];
