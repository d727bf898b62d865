//! A worked boot (MultiProcessor Specification 1.4, appendix B.4).

ghost use Rattle.std.specs.Prelude.{◌≡◌, [], ◌∷◌};
ghost use Rattle.mpb_spec.specs.Configs.{IsConfig, IsStartableAt};
ghost use Rattle.mpb_spec.specs.Journal.{IsComplete};
ghost use Rattle.mpb_start_laws.specs.Starts.{starts_at};
ghost use Rattle.mpb_start_laws.specs.Example.{small_boot, small_journal};

/// The worked board is startable at page 8, and its journal is complete; it starts the new and the old
/// processor once each.
#[tactic(auto, using(crate::proofs::ExampleLemmas::config, crate::proofs::ExampleLemmas::startable, crate::proofs::ExampleLemmas::complete))]
pub fn small_boot_starts_both_once()
    ensures config { IsConfig small_boot }
    ensures startable { IsStartableAt 8 small_boot }
    ensures complete { IsComplete small_boot small_journal }
    ensures new { starts_at 1 small_journal ≡ 8 ∷ [] }
    ensures old { starts_at 2 small_journal ≡ 8 ∷ [] }
{}
