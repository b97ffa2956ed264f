// The words of a command.
ghost use Rattle.std.specs.Prelude.{◌≡◌, IfOk, IfErr, IsOkAnd};
ghost use Rattle.irr_input.specs.Command.{texts, verb_of, arguments_of, AreWordsOf, AreWords, AreLimited, AreOneCommand, IsCommand, IsFaulty};
ghost use Rattle.irr_input.specs.Forms.{form_of, IsRefusedFrom};

use crate::arguments::{
    no_word, one_form, one_number, one_wave, point_and_wave, two_or_three_waves, two_waves,
};
use crate::form::Form;
use crate::verb::{Verb, named_verb};
use irr_kvec::Wave;
use irr_rat::Vec3;
use thiserror::Error;

/// What is asked for: what to compute, and at which wave vectors or from which number.
#[derive(Clone, Copy, Debug)]
pub enum Command {
    /// The star of a wave vector and the factor system of its little group.
    Star(Wave),
    /// The small representations at a wave vector.
    Small(Wave),
    /// The representations of the space group that they induce.
    Full(Wave),
    /// The types of these.
    Real(Wave),
    /// The parts of direct products of representations at two wave vectors.
    Product(Wave, Wave),
    /// The parts of restrictions to a subgroup.
    Subduce(Wave),
    /// The compatibility of representations along a line through two points, or in a plane through three.
    Compat(Wave, Wave, Option<Wave>),
    /// The parts of symmetric and antisymmetric squares.
    Square(Wave),
    /// The parts of the tensors of a form.
    Tensor(Form),
    /// What the sites of a point bring to a wave vector.
    Site(Vec3, Wave),
    /// Whether a report is right.
    Check,
    /// A summary for the made input of a number.
    Gen(u32),
}

/// The number of the first word, counted from 1, that no command has there, or that is missing.
#[derive(Clone, Copy, Debug, PartialEq, Eq, Error)]
#[error("word {0} is faulty or missing")]
pub struct Usage(pub u32);

/// The command that words ask for: a command word, byte by byte, and then the texts of its wave vectors, with that of a point
/// before them for sites, or the word of a form of tensors, or the digits of a number of at most 4,294,967,295. It takes no
/// memory.
pub fn read_words(words: &[Vec<u8>]) -> Result<Command, Usage>
    ensures words { IfOk result (AreWords (texts words.now)) }
    ensures limits { IfOk result AreLimited }
    ensures only { (c : Command) → AreWords (texts words.now) c → IsOkAnd result (AreOneCommand c) }
    ensures faulty { IfErr result (λ e. IsFaulty IsCommand (texts words.now) e.0) }
{
    let Some((first, rest)) = words.split_first() else {
        return Err(Usage(1));
    };
    let Some(verb) = named_verb(first) else {
        return Err(Usage(1));
    };
    with_arguments(verb, rest)
}

// The command that does this, at the arguments that the words behind its own write.
fn with_arguments(verb: Verb, words: &[Vec<u8>]) -> Result<Command, Usage>
    ensures verb { IfOk result (λ c. verb_of c ≡ verb) }
    ensures limits { IfOk result AreLimited }
    ensures arguments { IfOk result (λ c. AreWordsOf (arguments_of c) (texts words.now)) }
    ensures refused { IfErr result (λ e. IsRefusedFrom 2 (form_of verb) (texts words.now) e.0) }
{
    match verb {
        Verb::Star => Ok(Command::Star(one_wave(words)?)),
        Verb::Small => Ok(Command::Small(one_wave(words)?)),
        Verb::Full => Ok(Command::Full(one_wave(words)?)),
        Verb::Real => Ok(Command::Real(one_wave(words)?)),
        Verb::Product => {
            let (first, second) = two_waves(words)?;
            Ok(Command::Product(first, second))
        }
        Verb::Subduce => Ok(Command::Subduce(one_wave(words)?)),
        Verb::Compat => {
            let (first, second, third) = two_or_three_waves(words)?;
            Ok(Command::Compat(first, second, third))
        }
        Verb::Square => Ok(Command::Square(one_wave(words)?)),
        Verb::Tensor => Ok(Command::Tensor(one_form(words)?)),
        Verb::Site => {
            let (point, wave) = point_and_wave(words)?;
            Ok(Command::Site(point, wave))
        }
        Verb::Check => {
            no_word(words, 2)?;
            Ok(Command::Check)
        }
        Verb::Gen => Ok(Command::Gen(one_number(words)?)),
    }
}
