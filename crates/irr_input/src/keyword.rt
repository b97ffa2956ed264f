// The words that begin the lines of sections.
ghost use Rattle.std.specs.Prelude.{◌≡◌, ◌≢◌, IfSome, Some};
ghost use Rattle.std.specs.List.{All};
ghost use Rattle.irr_token.specs.Kinds.{kind_of};
ghost use Rattle.irr_token.specs.declared.kind.Kind.TheVariants.{Blank};
ghost use Rattle.irr_input.specs.SectionLines.{Begins, word_of};
ghost use Rattle.irr_input.specs.LineReading.{IsWordBefore};
ghost use Rattle.irr_input.specs.declared.keyword.Keyword.{Keyword};

use irr_token::{Kind, Rest, behind, kind_of_byte};

// Which line of a section a word begins.
#[derive(Clone, Copy, Debug, PartialEq, Eq)]
pub(crate) enum Keyword {
    Subgroup,
    Basis,
    Origin,
    Report,
}

// What the first word of a line begins, where it is the word of a section.
pub(crate) fn keyword_of(line: &[u8]) -> Option<Keyword>
    ensures found { IfSome result (λ k. Begins k line.now) }
    ensures only { (k : Keyword) → Begins k line.now → result ≡ Some k }
{
    let place = 0;
    let rest = behind(Rest { place, text: line }, 0);
    named_keyword(first_word(rest.text))
}

// The bytes before the first blank.
fn first_word(text: &[u8]) -> &[u8]
    ensures no_blank { All (λ b. kind_of b ≢ Blank) result.now }
    ensures ends { IsWordBefore text.now result.now }
{
    match text
        .iter()
        .position(|byte| kind_of_byte(*byte) == Kind::Blank)
    {
        Some(at) => &text[..at],
        None => text,
    }
}

// What this word begins.
fn named_keyword(word: &[u8]) -> Option<Keyword>
    ensures found { IfSome result (λ k. word.now ≡ word_of k) }
    ensures only { (k : Keyword) → word.now ≡ word_of k → result ≡ Some k }
{
    match word {
        b"subgroup" => Some(Keyword::Subgroup),
        b"basis" => Some(Keyword::Basis),
        b"origin" => Some(Keyword::Origin),
        b"report" => Some(Keyword::Report),
        _ => None,
    }
}
