// Laws on what is asked for, and on how runs end.
ghost use Rattle.std.specs.Prelude.{ℕ, List, Option, Some, ◌≡◌, ◌⊎◌};
ghost use Rattle.irr_io.specs.Views.{SourceView, SinkView, IsAtEnd, ReadFailed, WriteFailed};
ghost use Rattle.irr_space.specs.Operation.{WaveVector};
ghost use Rattle.irr_space.specs.Reciprocal.{Sign};
ghost use Rattle.irr_space.specs.Reciprocal.Sign.{minus};
ghost use Rattle.irr_seitz.specs.declared.op.Op.{Op};
ghost use Rattle.irr_text.specs.ReportText.{ReportContent};
ghost use Rattle.irr_text.specs.StarText.{StarContent, IsStarOf};
ghost use Rattle.irr_input.specs.Stages.{SubContent};
ghost use Rattle.irr_input.specs.InputLines.{IsInput};
ghost use Rattle.irr_input.specs.declared.input.GenLine.{GenLine};
ghost use Rattle.irr_check.specs.Trials.Reading.{meaning};
ghost use Rattle.irr_check.specs.Verdict.{IsCompleteReport, IsVerdict};
ghost use Rattle.irr_check.specs.declared.verdict.Verdict.TheVariants.{Yes};
ghost use Rattle.irr_top.specs.GroupOf.{group_of};
ghost use Rattle.irr_top.specs.Request.{IsFaultyWord, ReadsInput};
ghost use Rattle.irr_top.specs.Asked.{Asks};
ghost use Rattle.irr_top.specs.Outcome.{Outcome, IsFailure};
ghost use Rattle.irr_top.specs.Answered.{IsAnswered, IsCutOff};
ghost use Rattle.irr_top.specs.declared.status.Status.{Status};
ghost use Rattle.irr_top.specs.declared.status.Status.TheVariants.{Done, Usage, ReadFault, WriteFault, Memory};

/// Words and the bytes of an input ask for one status.
pub fn one_status_is_asked_for()
    ensures { (words : List (List ℕ)) (bytes text other : List ℕ) (s t : Status)
        → Asks words bytes s text → Asks words bytes t other → s ≡ t }
{}

/// What an outcome says, status by status: a text that is asked for was written whole; a read failed, for a
/// command that reads an input, and nothing was written; a write failed, and a front of a text that is asked for was
/// written; memory was wanting, and nothing was written; at Done such a command has read its input to the end. Words
/// of no such command leave the source as it was. Faulty words are refused whatever the input is, unless memory was
/// wanting or a write failed.
pub fn an_outcome_status_by_status()
    ensures answered { (words : List (List ℕ)) (source read : SourceView) (sink written : SinkView) (t : Status)
        → Outcome words source read sink written t → ¬ (IsFailure t) → IsAnswered words source sink written t }
    ensures read_fault { (words : List (List ℕ)) (source read : SourceView) (sink written : SinkView)
        → Outcome words source read sink written ReadFault
        → ReadsInput words × ReadFailed source read × (written.held ≡ sink.held) }
    ensures write_fault { (words : List (List ℕ)) (source read : SourceView) (sink written : SinkView)
        → Outcome words source read sink written WriteFault
        → WriteFailed sink written × IsCutOff words source sink written }
    ensures memory { (words : List (List ℕ)) (source read : SourceView) (sink written : SinkView)
        → Outcome words source read sink written Memory → written.held ≡ sink.held }
    ensures done { (words : List (List ℕ)) (source read : SourceView) (sink written : SinkView)
        → Outcome words source read sink written Done → ReadsInput words → IsAtEnd read }
    ensures unread { (words : List (List ℕ)) (source read : SourceView) (sink written : SinkView) (t : Status)
        → Outcome words source read sink written t → ¬ (ReadsInput words) → read ≡ source }
    ensures usage { (words : List (List ℕ)) (source read : SourceView) (sink written : SinkView) (n : ℕ) (t : Status)
        → IsFaultyWord words n → Outcome words source read sink written t
        → (t ≡ Usage n) ⊎ ((t ≡ Memory) ⊎ (t ≡ WriteFault)) }
{}

/// A report that an input has and that has the verdict Yes is that of a complete list of small representations.
pub fn yes_is_for_complete_reports()
    ensures { (bytes : List ℕ) (lines : List GenLine) (sub : Option SubContent) (gens : List Op) (r : ReportContent)
        → IsInput bytes lines sub (Some r) → IsVerdict meaning minus (group_of gens) r Yes
        → IsCompleteReport minus (group_of gens) r }
{}

/// A wave vector of the group of generators has one star, and so the star one text.
pub fn one_star_of_a_wave_vector()
    ensures { (gens : List Op) (s : Sign) (k : WaveVector) (c d : StarContent)
        → IsStarOf s (group_of gens) k c → IsStarOf s (group_of gens) k d → c ≡ d }
{}
