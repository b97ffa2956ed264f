// Reading of fractions behind one another.
ghost use Rattle.std.specs.Prelude.{ℕ, ◌≡◌, ◌+◌, ◌<◌, ◌≤◌, ◌^◌, ◌↔◌, List, [], ◌∷◌, length, take, drop, IsTrue};
ghost use Rattle.irr_token.specs.Kinds.{AreBlanks};
ghost use Rattle.irr_token.specs.Quotient.{WrittenQuotient};
ghost use Rattle.irr_token.specs.Reading.{IsReadAs, HasDigits};
ghost use Rattle.irr_setting_text.specs.WrittenLine.{HasNoBlank, AreWritten, IsSpelling};
ghost use Rattle.irr_setting_text.specs.LineFront.{IsWord};
ghost use Rattle.irr_setting_text.specs.LineReading.{IsAtBlank, AreAlike, written_row, written_rows, RowHasDigits, RowsHaveDigits};

use irr_token::{Kind, Quotient, Rest, behind, front_quotient, kind_of_byte};

// Three fractions.
#[derive(Clone, Copy)]
pub(crate) struct Row<'a> {
    pub(crate) x: Quotient<'a>,
    pub(crate) y: Quotient<'a>,
    pub(crate) z: Quotient<'a>,
}

// Three rows.
#[derive(Clone, Copy)]
pub(crate) struct Rows<'a> {
    pub(crate) first: Row<'a>,
    pub(crate) second: Row<'a>,
    pub(crate) third: Row<'a>,
}

fn is_blank(byte: u8) -> bool
    ensures { IsTrue result ↔ AreBlanks (byte ∷ []) }
{
    match kind_of_byte(byte) {
        Kind::Blank => true,
        Kind::Digit | Kind::Mark => false,
    }
}

// The length of the longest front of `text` that has no blank.
#[tactic(auto, using(crate::proofs::Runs::run_more, crate::proofs::Runs::run_stops, crate::proofs::Runs::run_ends))]
fn run_length(text: &[u8]) -> usize
    ensures within { result ≤ length text.now }
    ensures no_blank { HasNoBlank (take result text.now) }
    ensures longest { IsAtBlank (drop result text.now) }
{
    let mut run = 0;
    while run < text.len() && !is_blank(text[run]) {
        run += 1;
    }
    run
}

// The fraction behind blanks at the front, and what is left behind it.
fn front_fraction<'a>(rest: Rest<'a>) -> (Quotient<'a>, Rest<'a>)
    requires fits { rest.place + length rest.text.now < 2 ^ 64 }
    ensures same { result.1.place + length result.1.text.now ≡ rest.entry.place + length rest.entry.text.now }
    ensures digits { HasDigits result.0 }
    ensures fraction { (q : WrittenQuotient) (qs : List WrittenQuotient) → AreWritten rest.entry.place (q ∷ qs) rest.entry.text.now
        → IsReadAs result.0 q × AreWritten result.1.place qs result.1.text.now }
{
    let rest = behind(rest, 0);
    let run = run_length(rest.text);
    let (front, text) = rest.text.split_at(run);
    let (quotient, _) = front_quotient(Rest {
        place: rest.place,
        text: front,
    });
    (
        quotient,
        Rest {
            place: rest.place + run,
            text,
        },
    )
}

// The three fractions at the front, and what is left behind them.
fn front_row<'a>(rest: Rest<'a>) -> (Row<'a>, Rest<'a>)
    requires fits { rest.place + length rest.text.now < 2 ^ 64 }
    ensures same { result.1.place + length result.1.text.now ≡ rest.entry.place + length rest.entry.text.now }
    ensures digits { RowHasDigits result.0 }
    ensures row { (x y z : WrittenQuotient) (qs : List WrittenQuotient) → AreWritten rest.entry.place (x ∷ y ∷ z ∷ qs) rest.entry.text.now
        → IsReadAs result.0.x x × IsReadAs result.0.y y × IsReadAs result.0.z z × AreWritten result.1.place qs result.1.text.now }
{
    let (x, rest) = front_fraction(rest);
    let (y, rest) = front_fraction(rest);
    let (z, rest) = front_fraction(rest);
    (Row { x, y, z }, rest)
}

// What is left of a line behind its word.
fn behind_word<'a>(line: &'a [u8], word: &[u8]) -> Rest<'a>
    requires { IsWord word.now }
    ensures same { result.place + length result.text.now ≡ length line.now }
    ensures rest { (n : ℕ) (qs : List WrittenQuotient) → IsSpelling word.now n qs line.now → AreWritten result.place qs result.text.now }
{
    let rest = behind(
        Rest {
            place: 0,
            text: line,
        },
        0,
    );
    let count = word.len();
    if rest.text.len() < count {
        return rest;
    }
    let (_, text) = rest.text.split_at(count);
    Rest {
        place: rest.place + count,
        text,
    }
}

// The three fractions of a line.
pub(crate) fn row_of_line<'a>(line: &'a [u8], word: &[u8]) -> Row<'a>
    requires { IsWord word.now }
    ensures digits { RowHasDigits result }
    ensures row { (qs : List WrittenQuotient) → IsSpelling word.now 3 qs line.now → AreAlike (written_row result) qs }
{
    let (row, _) = front_row(behind_word(line, word));
    row
}

// The nine fractions of a line, row by row.
pub(crate) fn rows_of_line<'a>(line: &'a [u8], word: &[u8]) -> Rows<'a>
    requires { IsWord word.now }
    ensures digits { RowsHaveDigits result }
    ensures rows { (qs : List WrittenQuotient) → IsSpelling word.now 9 qs line.now → AreAlike (written_rows result) qs }
{
    let (first, rest) = front_row(behind_word(line, word));
    let (second, rest) = front_row(rest);
    let (third, _) = front_row(rest);
    Rows {
        first,
        second,
        third,
    }
}
