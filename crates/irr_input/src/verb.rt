// Command words.
ghost use Rattle.std.specs.Prelude.{◌≡◌, IfSome, Some};
ghost use Rattle.irr_input.specs.declared.verb.Verb.{Verb};
ghost use Rattle.irr_input.specs.Command.{verb_word};

// What a command does.
#[derive(Clone, Copy)]
pub(crate) enum Verb {
    Star,
    Small,
    Full,
    Real,
    Product,
    Subduce,
    Compat,
    Square,
    Tensor,
    Site,
    Check,
    Gen,
}

// What the command of this word does, where it is a command word.
pub(crate) fn named_verb(word: &[u8]) -> Option<Verb>
    ensures found { IfSome result (λ v. word.now ≡ verb_word v) }
    ensures only { (v : Verb) → word.now ≡ verb_word v → result ≡ Some v }
{
    match word {
        b"star" => Some(Verb::Star),
        b"small" => Some(Verb::Small),
        b"full" => Some(Verb::Full),
        b"real" => Some(Verb::Real),
        b"product" => Some(Verb::Product),
        b"subduce" => Some(Verb::Subduce),
        b"compat" => Some(Verb::Compat),
        b"square" => Some(Verb::Square),
        b"tensor" => Some(Verb::Tensor),
        b"site" => Some(Verb::Site),
        b"check" => Some(Verb::Check),
        b"gen" => Some(Verb::Gen),
        _ => None,
    }
}
