//! Worked examples of the definitions, on a usual board whose tables are written out by hand. An example
//! is the contract of a function that does nothing.

ghost use Rattle.std.specs.Prelude.{◌≡◌, Some, None, take, true, false};
ghost use Rattle.mpf_madt.specs.declared.refusal.MadtReason.TheVariants as madt_why;
ghost use Rattle.mpf_madt.specs.Table.{IsMadt};
ghost use Rattle.mpf_madt.specs.Faults.{IsFirstMadtFault};
ghost use Rattle.mpf_madt.specs.Spelling.{madt_bytes};
ghost use Rattle.mpf_madt.specs.Lines.{isa_of, source_of};
ghost use Rattle.mpf_madt.specs.Translation.{madt_of};
ghost use Rattle.mpf_pir.specs.declared.table.PirReason.TheVariants as pir_why;
ghost use Rattle.mpf_pir.specs.declared.comparing.Odd.TheVariants as odd;
ghost use Rattle.mpf_pir.specs.Layout.{IsPir};
ghost use Rattle.mpf_pir.specs.Faults.{IsFirstPirFault};
ghost use Rattle.mpf_pir.specs.Made.{pir_of};
ghost use Rattle.mpf_pir.specs.Differences.{IsDifference};
ghost use Rattle.mpf_laws.specs.Examples.{board, board_answers, line, madt_bytes_with, board_madt, level_madt, pir_bytes_with, board_pir, moved_pir, odd_device};

/// The MADT of the board has 88 bytes. IRQ 0 is at interrupt 2, edge and high.
pub fn madt_of_a_board()
    ensures bytes { madt_bytes (madt_of board board_answers) ≡ board_madt }
    ensures line_0 { source_of board board_answers 0 ≡ Some (line 2 false false) }
    ensures line_1 { source_of board board_answers 1 ≡ Some (line 1 false false) }
    ensures no_line_2 { source_of board board_answers 2 ≡ None }
{}

/// With other flags of its override IRQ 0 is level and low. Without its last byte the length is wrong.
pub fn other_madts_of_a_board()
    ensures table { IsMadt level_madt (madt_bytes_with 0xB7 0x0F) }
    ensures line_0 { isa_of level_madt 0 ≡ line 2 true true }
    ensures line_1 { isa_of level_madt 1 ≡ line 1 false false }
    ensures cut { IsFirstMadtFault (take 87 board_madt) 4 madt_why.BadLength }
{}

/// The PCI IRQ routing table of the board has 48 bytes. With the slot of device 3 two pins are odd; with
/// another first byte it is no table.
pub fn pirs_of_a_board()
    ensures table { IsPir (pir_of board) board_pir }
    ensures moved { IsPir moved_pir (pir_bytes_with 0x24 0xA7 0x18) }
    ensures device_2 { IsDifference board moved_pir (odd_device 2 odd.OnlyMp) }
    ensures device_3 { IsDifference board moved_pir (odd_device 3 odd.OnlyPir) }
    ensures signature { IsFirstPirFault (pir_bytes_with 0x25 0xAF 0x10) 0 pir_why.BadSignature }
{}
