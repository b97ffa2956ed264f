// Laws on words and inputs.
ghost use Rattle.std.specs.Prelude.{ℕ, ◌≡◌, List, Option};
ghost use Rattle.irr_text.specs.ReportText.{ReportContent};
ghost use Rattle.irr_input.specs.declared.words.Command.{Command};
ghost use Rattle.irr_input.specs.declared.input.GenLine.{GenLine};
ghost use Rattle.irr_input.specs.declared.input.Reason.{Reason};
ghost use Rattle.irr_input.specs.Command.{AreWords, AreOneCommand, IsCommand, IsFaulty};
ghost use Rattle.irr_input.specs.Stages.{SubContent};
ghost use Rattle.irr_input.specs.InputLines.{IsInput, IsFaultyLine, IsLimitLine, placed};

/// Words are one command, or none and faulty at one word.
pub fn words_mean_one_command()
    ensures command { (words : List (List ℕ)) (c d : Command) → AreWords words c → AreWords words d → AreOneCommand c d }
    ensures faulty { (words : List (List ℕ)) (m n : ℕ) → IsFaulty IsCommand words m → IsFaulty IsCommand words n → m ≡ n }
    ensures either { (words : List (List ℕ)) (n : ℕ) → IsFaulty IsCommand words n → IsCommand words → ⊥ }
{}

/// Bytes are one input, with one subgroup and one report or none; or they have one first faulty line, which has one fault, or
/// one first line of a report that passes a limit. They are never two of these.
pub fn bytes_mean_one_input()
    ensures input { (bytes : List ℕ) (gens others : List GenLine) (sub less : Option SubContent) (report other : Option ReportContent)
        → IsInput bytes gens sub report → IsInput bytes others less other → (placed gens ≡ placed others) × (sub ≡ less) × (report ≡ other) }
    ensures faulty { (bytes : List ℕ) (m n : ℕ) (r s : Reason) → IsFaultyLine bytes m r → IsFaultyLine bytes n s → (m ≡ n) × (r ≡ s) }
    ensures limit { (bytes : List ℕ) (m n : ℕ) → IsLimitLine bytes m → IsLimitLine bytes n → m ≡ n }
    ensures input_or_faulty { (bytes : List ℕ) (gens : List GenLine) (sub : Option SubContent) (report : Option ReportContent) (n : ℕ) (r : Reason)
        → IsInput bytes gens sub report → IsFaultyLine bytes n r → ⊥ }
    ensures input_or_limit { (bytes : List ℕ) (gens : List GenLine) (sub : Option SubContent) (report : Option ReportContent) (n : ℕ)
        → IsInput bytes gens sub report → IsLimitLine bytes n → ⊥ }
    ensures faulty_or_limit { (bytes : List ℕ) (m n : ℕ) (r : Reason) → IsFaultyLine bytes m r → IsLimitLine bytes n → ⊥ }
{}
