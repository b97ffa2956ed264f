// The grammar of lines of a word and some fractions, told from left to right.
ghost use Rattle.std.specs.Prelude.{◌≡◌, ◌↔◌, IsOk, IfErr};
ghost use Rattle.std.specs.Option.{option_map};
ghost use Rattle.irr_grammar.specs.ShapePlace.{IsShapePlace};
ghost use Rattle.irr_setting_text.specs.WrittenLine.{IsLine};
ghost use Rattle.irr_setting_text.specs.LineFront.{IsWord, sort_of, mark_sort, state_of, begun, after_sort, after_letter, next_state, is_whole, ends_line};

use irr_token::{Kind, kind_of_byte};

// The sorts of bytes that a line tells apart: blanks, digits, signs, the slash and others.
#[derive(Clone, Copy)]
enum Sort {
    Space,
    Figure,
    Sign,
    Slash,
    Other,
}

fn sort_of_byte(byte: u8) -> Sort
    ensures { result ≡ sort_of byte }
{
    match kind_of_byte(byte) {
        Kind::Blank => Sort::Space,
        Kind::Digit => Sort::Figure,
        Kind::Mark => sort_of_mark(byte),
    }
}

fn sort_of_mark(byte: u8) -> Sort
    ensures { result ≡ mark_sort byte }
{
    match byte {
        b'+' | b'-' => Sort::Sign,
        b'/' => Sort::Slash,
        _ => Sort::Other,
    }
}

// Where a front of a line ends: before the word, in it or behind it, behind a blank, or in a fraction behind its
// sign, its numerator, the slash or its denominator.
#[derive(Clone, Copy)]
enum Stage {
    Start,
    Word,
    Gap,
    Signed,
    Numerator,
    Over,
    Denominator,
}

// The end of a front, with what is left of the word and how many fractions are still to come.
#[derive(Clone, Copy)]
struct Front<'a> {
    stage: Stage,
    word: &'a [u8],
    left: usize,
}

impl<'a> Front<'a> {
    fn at(self, stage: Stage) -> Front<'a>
        ensures stage { result.stage ≡ stage }
        ensures word { result.word.now ≡ self.entry.word.now }
        ensures left { result.left ≡ self.entry.left }
    {
        Front {
            stage,
            word: self.word,
            left: self.left,
        }
    }

    // A fraction begins, if one is still to come.
    fn begun(self, stage: Stage) -> Option<Front<'a>>
        ensures { option_map state_of result ≡ begun stage self.entry.word.now self.entry.left }
    {
        let left = self.left.checked_sub(1)?;
        Some(Front {
            stage,
            word: self.word,
            left,
        })
    }

    // Where the front ends with one byte more of a sort, outside the word.
    fn after_sort(self, sort: Sort) -> Option<Front<'a>>
        ensures { option_map state_of result ≡ after_sort self.entry.stage sort self.entry.word.now self.entry.left }
    {
        match (self.stage, sort) {
            (Stage::Gap, Sort::Sign) => self.begun(Stage::Signed),
            (Stage::Gap, Sort::Figure) => self.begun(Stage::Numerator),
            (Stage::Signed | Stage::Numerator, Sort::Figure) => Some(self.at(Stage::Numerator)),
            (Stage::Numerator, Sort::Slash) => Some(self.at(Stage::Over)),
            (Stage::Over | Stage::Denominator, Sort::Figure) => Some(self.at(Stage::Denominator)),
            (Stage::Signed | Stage::Over, Sort::Space) => None,
            (_, Sort::Space) => Some(self.at(Stage::Gap)),
            _ => None,
        }
    }

    // Where it ends with one byte more where a letter of the word is due, with the letters behind it.
    fn after_letter(self, is_letter: bool, rest: &'a [u8], sort: Sort) -> Option<Front<'a>>
        ensures { option_map state_of result ≡ after_letter is_letter self.entry.stage self.entry.word.now rest.entry.now sort self.entry.left }
    {
        if is_letter {
            return Some(Front {
                stage: Stage::Word,
                word: rest,
                left: self.left,
            });
        }
        match (self.stage, sort) {
            (Stage::Start, Sort::Space) => Some(self),
            _ => None,
        }
    }

    // Where the front ends with one byte more, if it still begins a line.
    fn after(self, byte: u8) -> Option<Front<'a>>
        ensures { option_map state_of result ≡ next_state self.entry.stage self.entry.word.now self.entry.left byte }
    {
        let sort = sort_of_byte(byte);
        match self.stage {
            Stage::Start | Stage::Word => match self.word.split_first() {
                Some((letter, rest)) => self.after_letter(*letter == byte, rest, sort),
                None => self.after_sort(sort),
            },
            _ => self.after_sort(sort),
        }
    }

    // Whether the front ends behind the word and outside a fraction that is not yet whole.
    fn is_whole(self) -> bool
        ensures { result ≡ is_whole self.entry.stage self.entry.word.now }
    {
        match self.stage {
            Stage::Start | Stage::Word => self.word.is_empty(),
            Stage::Gap | Stage::Numerator | Stage::Denominator => true,
            Stage::Signed | Stage::Over => false,
        }
    }

    // Whether the front is a whole line.
    fn ends(self) -> bool
        ensures { result ≡ ends_line (state_of self.entry) }
    {
        self.left == 0 && self.is_whole()
    }
}

/// Whether the line is a word and as many fractions: else the place where it leaves this grammar.
pub(crate) fn check_shape(line: &[u8], word: &[u8], count: usize) -> Result<(), usize>
    requires { IsWord word.now }
    ensures line { IsOk result ↔ IsLine word.now count line.now }
    ensures place { IfErr result (λ n. IsShapePlace (IsLine word.now count) line.now n) }
{
    let mut front = Front {
        stage: Stage::Start,
        word,
        left: count,
    };
    for (place, byte) in line.iter().enumerate() {
        front = match front.after(*byte) {
            Some(next) => next,
            None => return Err(place),
        };
    }
    if front.ends() {
        Ok(())
    } else {
        Err(line.len())
    }
}
