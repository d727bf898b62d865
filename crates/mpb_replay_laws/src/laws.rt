//! What a verdict is.

ghost use Rattle.std.specs.Prelude.{◌≡◌, ◌↔◌};
ghost use Rattle.mpb_spec.specs.Plan.{Plan};
ghost use Rattle.mpb_spec.specs.Configs.{IsConfig};
ghost use Rattle.mpb_spec.specs.Journal.{IsComplete, final_state_of};
ghost use Rattle.mpb_robin.specs.Account.{AccountsForPulses};
ghost use Rattle.mpb_report_line.specs.declared.report.Report.{Report as AReport};
ghost use Rattle.mpb_replay_laws.specs.declared.verdict.Verdict.{Verdict as AVerdict};
ghost use Rattle.mpb_replay_laws.specs.declared.verdict.Verdict.TheVariants.{Legal};
ghost use Rattle.mpb_replay_laws.specs.Lines.{lines_in, lines_of};
ghost use Rattle.mpb_replay_laws.specs.Verdict.{IsVerdict};

/// A report has one verdict.
#[tactic(auto, using(crate::proofs::OneVerdict::same_verdict, crate::proofs::Settling::some_verdict))]
pub fn reports_have_one_verdict()
    ensures some { (c : Plan) (r : AReport) → IsConfig c → (v : AVerdict) × IsVerdict c r v }
    ensures one { (c : Plan) (r : AReport) (v w : AVerdict) → IsVerdict c r v → IsVerdict c r w → v ≡ w }
{}

/// Legal is left exactly where the entries are a complete journal, the logs account for all pulses, and each
/// line of the state is the board's.
pub fn legal_reports_are_complete()
    ensures { (c : Plan) (r : AReport) → IsConfig c → IsVerdict c r Legal ↔ (IsComplete c r.entries × AccountsForPulses c r.entries r.logs × (lines_in r ≡ lines_of (final_state_of c r.entries))) }
{}
