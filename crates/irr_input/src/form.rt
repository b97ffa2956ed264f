// Forms of tensors.
ghost use Rattle.std.specs.Prelude.{◌≡◌, IfSome, Some};
ghost use Rattle.irr_input.specs.declared.form.Form.{Form};
ghost use Rattle.irr_input.specs.Command.{form_word};

/// A form of tensors: those of a rank, or the symmetric or antisymmetric ones of rank 2.
#[derive(Clone, Copy, Debug, PartialEq, Eq)]
pub enum Form {
    /// Rank 1: vectors.
    Rank1,
    /// Rank 2.
    Rank2,
    /// Rank 3.
    Rank3,
    /// Rank 4.
    Rank4,
    /// Symmetric, of rank 2.
    Sym2,
    /// Antisymmetric, of rank 2.
    Anti2,
}

// The form of this word, where it is the word of one.
pub(crate) fn named_form(word: &[u8]) -> Option<Form>
    ensures found { IfSome result (λ f. word.now ≡ form_word f) }
    ensures only { (f : Form) → word.now ≡ form_word f → result ≡ Some f }
{
    match word {
        b"1" => Some(Form::Rank1),
        b"2" => Some(Form::Rank2),
        b"3" => Some(Form::Rank3),
        b"4" => Some(Form::Rank4),
        b"sym2" => Some(Form::Sym2),
        b"anti2" => Some(Form::Anti2),
        _ => None,
    }
}
