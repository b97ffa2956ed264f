// Bytes and their kinds.
ghost use Rattle.std.specs.Prelude.{◌≡◌};
ghost use Rattle.irr_token.specs.Kinds.{kind_of};

/// The kinds of bytes that every text of tokens tells apart: blanks are spaces and tabs, digits are `0` to
/// `9`, and each other byte is a mark.
#[derive(Clone, Copy, Debug, PartialEq, Eq)]
pub enum Kind {
    Blank,
    Digit,
    Mark,
}

/// The kind of a byte.
pub fn kind_of_byte(byte: u8) -> Kind
    ensures { result ≡ kind_of byte }
{
    match byte {
        b' ' | b'\t' => Kind::Blank,
        b'0'..=b'9' => Kind::Digit,
        _ => Kind::Mark,
    }
}
