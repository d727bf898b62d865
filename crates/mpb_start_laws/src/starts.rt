//! What a complete boot says of the processors that it starts (MultiProcessor Specification 1.4, appendix B.4).

ghost use Rattle.std.specs.Prelude.{◌≡◌, ℕ, List};
ghost use Rattle.std.specs.List.{Contains};
ghost use Rattle.mpb_spec.specs.declared.entry.Entry.{Entry as AnEntry};
ghost use Rattle.mpb_spec.specs.State.{Processor};
ghost use Rattle.mpb_spec.specs.Plan.{Plan};
ghost use Rattle.mpb_spec.specs.Configs.{IsConfig, IsStartableAt};
ghost use Rattle.mpb_spec.specs.Journal.{IsLegal, IsComplete, final_state_of};
ghost use Rattle.mpb_start_laws.specs.Starts.{IsStartedOnce, starts_at, life_pages};

/// A complete journal of a config whose boot program starts each processor has started each, once, at the page.
pub fn complete_boots_start_each_processor_once()
    ensures { (page : ℕ) (c : Plan) (journal : List AnEntry) → IsConfig c → IsStartableAt page c → IsComplete c journal → IsStartedOnce page c journal }
{}

/// In every legal journal of a config a processor that was started has one outcome Started, with its page,
/// and any other has none: no processor is started twice.
pub fn journals_tell_each_start_once()
    ensures { (c : Plan) (journal : List AnEntry) → IsConfig c → IsLegal c journal → (p : Processor) → Contains (final_state_of c journal).processors p → starts_at p.id journal ≡ life_pages p.life }
{}
