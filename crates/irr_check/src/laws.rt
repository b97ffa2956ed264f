// Laws on verdicts.
ghost use Rattle.std.specs.Prelude.{ℕ, ◌≡◌, ◌<◌, List};
ghost use Rattle.irr_algebra.specs.Fin.{Fin};
ghost use Rattle.irr_space.specs.Reciprocal.{Sign};
ghost use Rattle.irr_space.specs.SpaceGroup.{Generated};
ghost use Rattle.irr_text.specs.ReportText.{ReportContent};
ghost use Rattle.irr_seitz.specs.declared.op.Op.{Op};
ghost use Rattle.irr_close.specs.Limits.{operations};
ghost use Rattle.irr_check.specs.Trials.{Reading};
ghost use Rattle.irr_check.specs.Trials.Reading.{dimensions, meaning};
ghost use Rattle.irr_check.specs.Verdict.{IsCompleteReport, IsVerdict};
ghost use Rattle.irr_check.specs.declared.verdict.Verdict.{Verdict};
ghost use Rattle.irr_check.specs.declared.verdict.Verdict.TheVariants.{Yes};

/// There is one verdict on a report for the group that generators generate, however the trials are read.
pub fn one_verdict_on_a_report()
    ensures { (gens : List Op) (w : Reading) (s : Sign) (r : ReportContent) (u v : Verdict)
        → IsVerdict w s (Generated (operations gens)) r u → IsVerdict w s (Generated (operations gens)) r v → u ≡ v }
{}

/// A report on which the verdict is Yes is that of a complete list: by dimensions, or as it is meant, where each representation
/// has rows.
pub fn a_yes_is_complete()
    ensures by_dimensions { (gens : List Op) (s : Sign) (r : ReportContent) → IsVerdict dimensions s (Generated (operations gens)) r Yes
        → IsCompleteReport s (Generated (operations gens)) r }
    ensures as_it_is_meant { (gens : List Op) (s : Sign) (r : ReportContent) → ((m : Fin r.count) → 0 < r.size m)
        → IsVerdict meaning s (Generated (operations gens)) r Yes → IsCompleteReport s (Generated (operations gens)) r }
{}

/// The verdict by dimensions is the verdict as it is meant, where each representation has rows.
pub fn verdicts_as_they_are_meant()
    ensures { (gens : List Op) (s : Sign) (r : ReportContent) (v : Verdict) → ((m : Fin r.count) → 0 < r.size m)
        → IsVerdict dimensions s (Generated (operations gens)) r v → IsVerdict meaning s (Generated (operations gens)) r v }
{}
