// The lines of printed reports.
ghost use Rattle.std.specs.Prelude.{ℕ, ◌≡◌, ◌<◌, ◌⊎◌, List};
ghost use Rattle.std.specs.List.{flat_map};
ghost use Rattle.irr_algebra.specs.Fin.{Fin};
ghost use Rattle.irr_text.specs.ReportText.{ReportContent, report_text, line};
ghost use Rattle.irr_report.specs.ReportLines.{report_lines};
ghost use Rattle.irr_report.specs.ModestReport.{IsModest};
ghost use Rattle.irr_report.specs.ReportLimits.{PassesAt};
ghost use Rattle.irr_report.specs.ReportFault.{IsReport, IsLineFault, IsRangeFault, IsReportText, IsFault};
ghost use Rattle.irr_report.specs.declared.report.ReportError.{ReportError};
ghost use Rattle.irr_report.specs.declared.report.ReportError.TheVariants.{Memory};
ghost use Rattle.irr_report.specs.LimitedReport.{IsLimitedReport};
ghost use Rattle.irr_report.specs.ReadReport.{HasSmallNumbers};
ghost use Rattle.irr_report.specs.ReadableParts.{HasReadableParts};
ghost use Rattle.irr_report.specs.PrintedReport.{written_of};

/// The text of a report is the lines of a report as it is written, one after another, each with a line feed.
pub fn printed_reports_have_lines()
    ensures { (r : ReportContent) → report_text r ≡ flat_map line (report_lines (written_of r)) }
{}

/// The lines of a report, each with a line feed behind it, are a text of that report.
pub fn lines_are_text()
    ensures { (lines : List (List ℕ)) (r : ReportContent) → IsReport lines r → IsReportText (flat_map line lines) r }
{}

/// A printed report whose numbers are within the limits is read as that report, where its wave vector and
/// operations can be read and no line passes a limit.
pub fn printed_reports_are_read()
    ensures { (r : ReportContent) → HasSmallNumbers r → HasReadableParts r → ((k : ℕ) → ¬ (PassesAt (written_of r) k))
        → IsReportText (report_text r) r }
{}

/// The lines of a printed report whose counts are small, and the numbers of each of whose representations are
/// small over one small denominator, pass no limit.
pub fn small_reports_pass_no_limit()
    ensures { (r : ReportContent) → IsModest r → (k : ℕ) → ¬ (PassesAt (written_of r) k) }
{}

/// So it is read as that report, where it has operations, each representation has rows, and the wave vector and
/// the operations can be read.
pub fn small_reports_are_read()
    ensures { (r : ReportContent) → IsModest r → HasReadableParts r → 0 < r.places → ((m : Fin r.count) → 0 < r.size m)
        → IsReportText (report_text r) r }
{}

/// Lines are those of a report, or a line of them is the first at fault, or a line is the first that passes a
/// limit, and never two of these; and there is one such line. So a text never has a report and a fault, or two
/// faults, want of memory aside.
pub fn one_answer_for_each_report()
    ensures read_or_line { (lines : List (List ℕ)) (r : ReportContent) (n : ℕ) → IsReport lines r → ¬ (IsLineFault lines n) }
    ensures read_or_range { (lines : List (List ℕ)) (r : ReportContent) (n : ℕ) → IsReport lines r → ¬ (IsRangeFault lines n) }
    ensures line_or_range { (lines : List (List ℕ)) (m n : ℕ) → IsLineFault lines m → ¬ (IsRangeFault lines n) }
    ensures one_line { (lines : List (List ℕ)) (m n : ℕ) → IsLineFault lines m → IsLineFault lines n → m ≡ n }
    ensures one_range { (lines : List (List ℕ)) (m n : ℕ) → IsRangeFault lines m → IsRangeFault lines n → m ≡ n }
    ensures read_or_fault { (text : List ℕ) (r : ReportContent) (e : ReportError) → IsReportText text r → IsFault text e → e ≡ Memory }
    ensures one_fault { (text : List ℕ) (e f : ReportError) → IsFault text e → IsFault text f → (e ≡ f) ⊎ ((e ≡ Memory) ⊎ (f ≡ Memory)) }
{}

/// A report that lines write has limited counts, and the numbers of each representation are limited over one
/// small denominator.
pub fn read_reports_are_limited()
    ensures { (lines : List (List ℕ)) (r : ReportContent) → IsReport lines r → IsLimitedReport r }
{}

/// Lines write one report at most, and so does a text.
pub fn one_report_is_written()
    ensures lines { (lines : List (List ℕ)) (r s : ReportContent) → IsReport lines r → IsReport lines s → r ≡ s }
    ensures text { (text : List ℕ) (r s : ReportContent) → IsReportText text r → IsReportText text s → r ≡ s }
{}
