//! Laws of the report, each the contract of a function that does nothing.

ghost use Rattle.std.specs.Prelude.{◌≡◌, ◌<◌, ℕ, List};
ghost use Rattle.std.specs.List.{AllByRecursion};
ghost use Rattle.mpb_spec.specs.Numbers.{IsAscending};
ghost use Rattle.mpb_report_spec.specs.StateLines.{members};

/// Of a set of vectors, which is kept as an ascending list, just the set is printed.
pub fn sets_are_printed_whole()
    ensures { (vectors : List ℕ) → IsAscending vectors → AllByRecursion (λ v. v < 256) vectors → members vectors ≡ vectors }
{}
