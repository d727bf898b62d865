//! Laws of the findings, each the contract of a function that does nothing.

ghost use Rattle.std.specs.Prelude.{◌≡◌, List};
ghost use Rattle.mpt_spec.specs.declared.tables.Tables.{Tables};
ghost use Rattle.mpt_rules.specs.declared.rule.Finding.{Finding};
ghost use Rattle.mpt_audit.specs.Findings.{AreFindingsOf};

/// Tables have one list of findings.
pub fn findings_are_one()
    ensures { (tables : Tables) (fs gs : List Finding) → AreFindingsOf tables fs → AreFindingsOf tables gs → fs ≡ gs }
{}
