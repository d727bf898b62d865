//! Laws of the definitions of reports. Each is the contract of a function that does nothing.

ghost use Rattle.std.specs.Prelude.{◌≡◌, ◌<◌, ◌^◌, ◌⊎◌, ◌≤◌, ℕ, List, length, map, sum_by, None};
ghost use Rattle.mpt_route.specs.declared.platform.Platform.{Platform as APlatform};
ghost use Rattle.mpt_route.specs.Routes.{routes_of};
ghost use Rattle.mpb_spec.specs.declared.entry.Entry.{Entry as EntryOf};
ghost use Rattle.mpb_spec.specs.Configs.{IsConfig};
ghost use Rattle.mpb_spec.specs.Journal.{IsLegal, IsComplete};
ghost use Rattle.mpb_spec.specs.Plan.{Plan, plan_size};
ghost use Rattle.mpb_spec.specs.Room.{room};
ghost use Rattle.mpb_spec.specs.declared.pulse.Pulse.{Pulse as PulseOf};
ghost use Rattle.mpb_spec.specs.declared.pulse.Hit.{Hit as HitOf};
ghost use Rattle.mpb_spec.specs.Pulses.{pulses_of};
ghost use Rattle.mpb_spec.specs.Pulses.{pulses_in};
ghost use Rattle.mpb_spec.specs.Numbers.{AreBytes};
ghost use Rattle.mpb_script.specs.declared.script.Script.{Script as AScript};
ghost use Rattle.mpb_script.specs.Values.{HasScriptValues};
ghost use Rattle.mpb_setup.specs.Board.{enabled_ids, board_config_of};
ghost use Rattle.mpb_setup.specs.Faults.{board_fault_of};
ghost use Rattle.mpb_robin.specs.Account.{AccountsForPulses};
ghost use Rattle.mpb_robin.specs.RoundRobin.{IsRoundRobinOf};
ghost use Rattle.mpb_report_spec.specs.Report.{report_of};
ghost use Rattle.mpb_report_line.specs.declared.report.Report.{Report as ReportOf};
ghost use Rattle.mpt_parse.specs.declared.fault.LineWhy.{LineWhy as WhyOf};
ghost use Rattle.mpt_parse.specs.Listings.{IsFirstBadLine};
ghost use Rattle.mpb_report_parse.specs.Reports.{IsReport, IsReportOf, shown_report};
ghost use Rattle.mpb_replay_laws.specs.declared.verdict.Verdict.TheVariants.{Legal};
ghost use Rattle.mpb_replay_laws.specs.Verdict.{IsVerdict};
ghost use Rattle.mpb_report_laws.specs.Values.{HasOpValues};

/// A text of fewer than 2^32 bytes is that of a report, or has a first bad line.
pub fn texts_are_judged()
    ensures { (text : List ℕ) → length text < 2 ^ 32 → ((r : ReportOf) × IsReportOf r text)
        ⊎ ((n : ℕ) × (w : WhyOf) × IsFirstBadLine IsReport text n w) }
{}

/// The numbers of all ops of a board that a platform and a script describe are those of their types. The
/// ids are those of bytes.
pub fn boards_have_op_values()
    ensures { (p : APlatform) (s : AScript) → board_fault_of p s ≡ None → HasScriptValues s → AreBytes (enabled_ids p)
        → HasOpValues (board_config_of p (routes_of p s.elcr) s) }
{}

/// The report of a legal run of a config is read back as what it says: its entries, its logs, and the
/// state that the entries leave. The numbers of the config's ops are those of their types.
pub fn runs_are_read_back()
    ensures { (c : Plan) (journal : List EntryOf) (logs : List (List (PulseOf × HitOf))) → IsConfig c → HasOpValues c → plan_size c < 2 ^ 32
        → IsLegal c journal → map pulses_of logs ≡ map pulses_in c.devices → IsReportOf (shown_report c journal logs) (report_of c journal logs) }
{}

/// It has at most 256 MiB, where the config has room below 850,000 and its devices have no more than 8,192 words.
pub fn runs_are_short()
    ensures { (c : Plan) (journal : List EntryOf) (logs : List (List (PulseOf × HitOf))) → IsConfig c → HasOpValues c → room c < 850000 → sum_by length c.devices ≤ 8192
        → IsLegal c journal → map pulses_of logs ≡ map pulses_in c.devices → length (report_of c journal logs) ≤ 268435456 }
{}

/// The report of a complete run that accounts for all pulses is legal.
pub fn complete_runs_are_legal()
    ensures { (c : Plan) (journal : List EntryOf) (logs : List (List (PulseOf × HitOf))) → IsConfig c → IsComplete c journal
        → AccountsForPulses c journal logs → IsVerdict c (shown_report c journal logs) Legal }
{}

/// So is that of the round robin, and it is read back.
pub fn traces_are_legal()
    ensures read { (c : Plan) (journal : List EntryOf) (logs : List (List (PulseOf × HitOf))) → IsConfig c → HasOpValues c → plan_size c < 2 ^ 32
        → IsRoundRobinOf c journal logs → IsReportOf (shown_report c journal logs) (report_of c journal logs) }
    ensures legal { (c : Plan) (journal : List EntryOf) (logs : List (List (PulseOf × HitOf))) → IsConfig c → plan_size c < 2 ^ 32
        → IsRoundRobinOf c journal logs → IsVerdict c (shown_report c journal logs) Legal }
{}

/// A text determines the run that it reports: two runs, of one config or of two, whose reports are one
/// text have one journal and the same logs.
pub fn report_has_one_run()
    ensures { (c d : Plan) (journal other : List EntryOf) (logs others : List (List (PulseOf × HitOf))) (text : List ℕ)
        → IsReportOf (shown_report c journal logs) text → IsReportOf (shown_report d other others) text → (journal ≡ other) × (logs ≡ others) }
{}
