//! Laws of reports.

ghost use Rattle.std.specs.Prelude.{◌≡◌, ◌<◌, ◌^◌, ℕ, List, length};
ghost use Rattle.std.specs.List.{concat};
ghost use Rattle.mpb_spec.specs.declared.entry.Entry.{Entry as EntryOf};
ghost use Rattle.mpb_spec.specs.Plan.{Plan};
ghost use Rattle.mpb_spec.specs.declared.pulse.Pulse.{Pulse as PulseOf};
ghost use Rattle.mpb_spec.specs.declared.pulse.Hit.{Hit as HitOf};
ghost use Rattle.mpb_report_spec.specs.Report.{report_of};
ghost use Rattle.mpb_report_line.specs.declared.report.Report.{Report as ReportOf};
ghost use Rattle.mpb_report_parse.specs.Reports.{IsReportOf, lines_of, shown_report};

/// A text is that of one report at most.
pub fn report_is_one()
    ensures { (r s : ReportOf) (text : List ℕ) → IsReportOf r text → IsReportOf s text → r ≡ s }
{}

/// The report of a run is the text of what it says: its entries, its logs, and the state that the
/// entries leave.
pub fn run_is_reported()
    ensures { (c : Plan) (journal : List EntryOf) (logs : List (List (PulseOf × HitOf)))
        → length journal < 2 ^ 64 → report_of c journal logs ≡ concat (lines_of (shown_report c journal logs)) }
{}
