// Laws on texts of tokens.
ghost use Rattle.std.specs.Prelude.{ℕ, List, ◌≡◌};
ghost use Rattle.irr_token.specs.Token.{Token};
ghost use Rattle.irr_token.specs.Spelling.{AreSpelled, NumbersApart};

/// A text spells one list of tokens in which no number stands right behind another.
pub fn one_list_of_tokens()
    ensures { (at : ℕ) (ts us : List Token) (text : List ℕ) → NumbersApart ts → NumbersApart us
        → AreSpelled at ts text → AreSpelled at us text → ts ≡ us }
{}
