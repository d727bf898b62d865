//! Laws of the findings.

ghost use Rattle.std.specs.Prelude.{List};
ghost use Rattle.mpt_spec.specs.declared.tables.Tables.{Tables};
ghost use Rattle.mpt_rules.specs.declared.rule.Finding.{Finding};
ghost use Rattle.mpt_audit.specs.Findings.{AreFindingsOf};

/// All tables have a list of findings.
pub fn tables_have_findings()
    ensures { (tables : Tables) → (fs : List Finding) × AreFindingsOf tables fs }
{}
