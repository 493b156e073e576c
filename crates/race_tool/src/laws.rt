//! The laws of the report. Each function does nothing, and its contract is the law.
ghost use Rattle.race_tool.specs.Laws.{HasFinding, HasOneReport, HasOneReportByBothJudges};

/// There is a right finding for every list of bytes, and so a report.
pub fn has_a_finding(_plain: bool, _bytes: &[u8])
    ensures { HasFinding _plain _bytes.now }
{}

/// A list of bytes has at most one report and one status, whichever finding is right for it.
pub fn has_one_report(_plain: bool, _bytes: &[u8])
    ensures { HasOneReport _plain _bytes.now }
{}

/// Both judges give it the same report, unless it is too long for the plain one.
pub fn has_one_report_by_both_judges(_bytes: &[u8])
    ensures { HasOneReportByBothJudges _bytes.now }
{}
