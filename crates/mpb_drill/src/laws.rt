//! A drill has a board, whatever its number.

ghost use Rattle.std.specs.Prelude.{◌≡◌, ◌<◌, ℕ, None};
ghost use Rattle.mpt_spec.specs.Canonical.{IsWellFormed, FitsInImage};
ghost use Rattle.mpt_route.specs.Platform.{platform_of};
ghost use Rattle.mpb_script.specs.Values.{HasScriptValues};
ghost use Rattle.mpb_setup.specs.Faults.{board_fault_of};
ghost use Rattle.mpb_drill.specs.Drill.{drill_tables, drill_script};

/// The tables of a drill are well formed and fit, its script has the values of one that was read, and
/// nothing speaks against their board.
pub fn drills_have_boards()
    ensures fits { (n : ℕ) → FitsInImage (drill_tables n) }
    ensures values { (n : ℕ) → HasScriptValues (drill_script n) }
    ensures no_fault { (n : ℕ) → board_fault_of (platform_of (drill_tables n)) (drill_script n) ≡ None }
{}
