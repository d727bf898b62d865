//! What becomes of an interrupt that was set (Intel SDM volume 3, section 10.8.4).

ghost use Rattle.std.specs.Prelude.{List};
ghost use Rattle.mpb_spec.specs.declared.entry.Entry.{Entry as AnEntry};
ghost use Rattle.mpb_spec.specs.Plan.{Plan};
ghost use Rattle.mpb_spec.specs.Configs.{IsConfig};
ghost use Rattle.mpb_spec.specs.Journal.{IsLegal};
ghost use Rattle.mpb_laws.specs.Accounts.{IsAccounted};

/// In every legal journal of a config, each vector has at each processor as many Set outcomes as it was
/// taken there, and one more where it is still requested.
#[tactic(auto, using(crate::proofs::StepAccounts::accounted))]
pub fn set_vectors_are_taken_or_requested()
    ensures { (c : Plan) (journal : List AnEntry) → IsConfig c → IsLegal c journal → IsAccounted c journal }
{}
