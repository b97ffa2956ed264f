// The commands that are served.
ghost use Rattle.std.specs.Prelude.{◌≡◌, ◌↔◌, IfOk, IfErr, IfSome, IsNone, IsTrue};
ghost use Rattle.irr_input.specs.Command.{texts, AreLimited};
ghost use Rattle.irr_top.specs.Request.{command_of, made_number as made_of, BeginsServed, IsFaultyWord, IsServed, IsRequested};

use irr_input::{Command, Form, Usage, read_words};
use irr_kvec::Wave;
use irr_rat::Vec3;

/// What is asked for.
#[derive(Clone, Copy)]
pub(crate) enum Request {
    /// The star of a wave vector.
    Star(Wave),
    /// The small representations at a wave vector.
    Small(Wave),
    /// The full representations at a wave vector.
    Full(Wave),
    /// The direct products of the full representations at two wave vectors.
    Product(Wave, Wave),
    /// The parts of the full representations at a wave vector under the input's subgroup.
    Subduce(Wave),
    /// The compatibility relations of a line through two points, or of a plane through three.
    Compat(Wave, Wave, Option<Wave>),
    /// The types of the full representations.
    Real(Wave),
    /// The squares of the full representations.
    Square(Wave),
    /// The tensors of a form.
    Tensor(Form),
    /// The sites of a point, and what they bring to a wave vector.
    Site(Vec3, Wave),
    /// The verdict on the input's report.
    Check,
    /// The summary of the made input of a number.
    Gen(u32),
}

/// The request that the words are. An error is the number of the first word, counted from 1, that no command
/// that is served has there, or that is missing.
pub(crate) fn served(words: &[Vec<u8>]) -> Result<Request, u32>
    ensures requested { IfOk result (λ r. IsRequested (texts words.now) r) }
    ensures limits { IfOk result (λ r. AreLimited (command_of r)) }
    ensures faulty { IfErr result (λ n. IsFaultyWord (texts words.now) n) }
{
    match read_words(words) {
        Ok(command) => match request_of(command) {
            Some(request) => Ok(request),
            None => Err(1),
        },
        Err(Usage(n)) => Err(if begins_served(words) { n } else { 1 }),
    }
}

/// The number of the made input that a request is for; none where it reads an input.
pub(crate) fn made_number(request: &Request) -> Option<u32>
    ensures { result ≡ made_of request.now }
{
    match request {
        Request::Gen(number) => Some(*number),
        Request::Star(_)
        | Request::Small(_)
        | Request::Full(_)
        | Request::Product(_, _)
        | Request::Subduce(_)
        | Request::Compat(_, _, _)
        | Request::Real(_)
        | Request::Square(_)
        | Request::Tensor(_)
        | Request::Site(_, _)
        | Request::Check => None,
    }
}

// The request of a command, where it is served.
fn request_of(command: Command) -> Option<Request>
    ensures some { IfSome result (λ r. command ≡ command_of r) }
    ensures none { IsNone result → ¬ (IsServed command) }
{
    match command {
        Command::Star(wave) => Some(Request::Star(wave)),
        Command::Small(wave) => Some(Request::Small(wave)),
        Command::Full(wave) => Some(Request::Full(wave)),
        Command::Product(first, second) => Some(Request::Product(first, second)),
        Command::Subduce(wave) => Some(Request::Subduce(wave)),
        Command::Compat(first, second, third) => Some(Request::Compat(first, second, third)),
        Command::Real(wave) => Some(Request::Real(wave)),
        Command::Square(wave) => Some(Request::Square(wave)),
        Command::Tensor(form) => Some(Request::Tensor(form)),
        Command::Site(point, wave) => Some(Request::Site(point, wave)),
        Command::Check => Some(Request::Check),
        Command::Gen(number) => Some(Request::Gen(number)),
    }
}

// Whether the first word is that of a command that is served.
fn begins_served(words: &[Vec<u8>]) -> bool
    ensures { IsTrue result ↔ BeginsServed (texts words.now) }
{
    match words.split_first() {
        Some((first, _)) => matches!(
            first.as_slice(),
            b"star"
                | b"small"
                | b"full"
                | b"product"
                | b"compat"
                | b"real"
                | b"square"
                | b"tensor"
                | b"site"
                | b"check"
                | b"gen"
                | b"subduce"
        ),
        None => false,
    }
}
