//! Bytes and lines written by hand from MultiProcessor Specification 1.4, figures 4-2 to 4-4, with the
//! revision byte of either specification. What bytes 40 to 43 of the older header mean isn't said here:
//! they are four bytes that no reader of an extended part would take.

/// The floating pointer of revision 1 at 500h, which names the table at 510h: the bytes but the checksum
/// sum to 72h.
pub(crate) const POINTER_1: [u8; 16] = [
    0x5F, 0x4D, 0x50, 0x5F, 0x10, 0x05, 0x00, 0x00, 0x01, 0x01, 0x8E, 0x00, 0x00, 0x00, 0x00, 0x00,
];

/// The same of revision 4: the bytes but the checksum sum to 75h.
pub(crate) const POINTER_4: [u8; 16] = [
    0x5F, 0x4D, 0x50, 0x5F, 0x10, 0x05, 0x00, 0x00, 0x01, 0x04, 0x8B, 0x00, 0x00, 0x00, 0x00, 0x00,
];

/// A table of one processor at revision 1, with 11h, 22h, 33h and 44h in bytes 40 to 43. As an extended
/// part it would have 2211h bytes, which the image hasn't.
pub(crate) const TABLE_1: [u8; 64] = [
    0x50, 0x43, 0x4D, 0x50, 0x40, 0x00, 0x01, 0xF2, 0x4D, 0x50, 0x54, 0x41, 0x42, 0x20, 0x20, 0x20,
    0x42, 0x4F, 0x41, 0x52, 0x44, 0x20, 0x20, 0x20, 0x20, 0x20, 0x20, 0x20, 0x00, 0x00, 0x00, 0x00,
    0x00, 0x00, 0x01, 0x00, 0x00, 0x00, 0xE0, 0xFE, 0x11, 0x22, 0x33, 0x44, 0x00, 0x00, 0x10, 0x03,
    0x20, 0x05, 0x00, 0x00, 0xBF, 0x01, 0x00, 0x00, 0x00, 0x00, 0x00, 0x00, 0x00, 0x00, 0x00, 0x00,
];

/// The same table at revision 4, without an extended part and with the reserved byte 5Ah.
pub(crate) const TABLE_4: [u8; 64] = [
    0x50, 0x43, 0x4D, 0x50, 0x40, 0x00, 0x04, 0x3F, 0x4D, 0x50, 0x54, 0x41, 0x42, 0x20, 0x20, 0x20,
    0x42, 0x4F, 0x41, 0x52, 0x44, 0x20, 0x20, 0x20, 0x20, 0x20, 0x20, 0x20, 0x00, 0x00, 0x00, 0x00,
    0x00, 0x00, 0x01, 0x00, 0x00, 0x00, 0xE0, 0xFE, 0x00, 0x00, 0x00, 0x5A, 0x00, 0x00, 0x10, 0x03,
    0x20, 0x05, 0x00, 0x00, 0xBF, 0x01, 0x00, 0x00, 0x00, 0x00, 0x00, 0x00, 0x00, 0x00, 0x00, 0x00,
];

/// The line of the floating pointer of revision 1.
pub(crate) const POINTER_LINE_1: &[u8] =
    b"pointer at 00000500 table 00000510 revision 01 features 0000000000\n";

/// The line of the floating pointer of revision 4.
pub(crate) const POINTER_LINE_4: &[u8] =
    b"pointer at 00000500 table 00000510 revision 04 features 0000000000\n";

/// The header's line at revision 1.
pub(crate) const HEADER_LINE_1: &[u8] =
    b"header revision 01 oem \"MPTAB   \" product \"BOARD       \" oemtable 00000000 oemsize 0000 local FEE00000 old 11223344\n";

/// The same in canonical form.
pub(crate) const CLEAR_LINE_1: &[u8] =
    b"header revision 01 oem \"MPTAB   \" product \"BOARD       \" oemtable 00000000 oemsize 0000 local FEE00000 old 00000000\n";

/// The header's line at revision 4.
pub(crate) const HEADER_LINE_4: &[u8] =
    b"header revision 04 oem \"MPTAB   \" product \"BOARD       \" oemtable 00000000 oemsize 0000 local FEE00000 reserved 5A\n";

/// The same in canonical form, and what becomes of the header of revision 1 that is raised.
pub(crate) const CLEAR_LINE_4: &[u8] =
    b"header revision 04 oem \"MPTAB   \" product \"BOARD       \" oemtable 00000000 oemsize 0000 local FEE00000 reserved 00\n";

/// The line of the processor.
pub(crate) const PROCESSOR_LINE: &[u8] =
    b"processor id 00 version 10 flags 03 signature 00000520 features 000001BF reserved 0000000000000000\n";
