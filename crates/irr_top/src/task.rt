// Requests with what they need of an input.
ghost use Rattle.std.specs.Prelude.{◌≡◌, IfSome, IsNone, None, Some};
ghost use Rattle.irr_input.specs.Command.{AreLimited};
ghost use Rattle.irr_input.specs.InputLines.{content, sub_content};
ghost use Rattle.irr_report.specs.Limits.{IsWithinLimits as IsLimitedReport};
ghost use Rattle.irr_top.specs.Request.{command_of};
ghost use Rattle.irr_top.specs.Question.{question_of};
ghost use Rattle.irr_top.specs.Sections.{IsLimitedSection};
ghost use Rattle.irr_top.specs.Task.{asked_by, IsLimited};

use crate::request::Request;
use irr_gen::made_wave;
use irr_input::{Form, SubSpec};
use irr_kvec::Wave;
use irr_rat::Vec3;
use irr_report::Report;
use irr_sparse::Sparse;

/// The numbers that the program works with.
pub(crate) type Number = Sparse;

/// What is asked for, with the section of the input that it needs.
#[derive(Drop)]
pub(crate) enum Task {
    /// The star of a wave vector.
    Star(Wave),
    /// The small representations at a wave vector.
    Small(Wave),
    /// The full representations at a wave vector.
    Full(Wave),
    /// The direct products of the full representations at two wave vectors.
    Product(Wave, Wave),
    /// The parts of the full representations at a wave vector under the subgroup of a section.
    Subduce(Wave, SubSpec),
    /// The compatibility relations of a line through two points, or of a plane through three.
    Compat(Wave, Wave, Option<Wave>),
    /// The types of the full representations at a wave vector.
    Real(Wave),
    /// The squares of the full representations at a wave vector.
    Square(Wave),
    /// The tensors of a form.
    Tensor(Form),
    /// The sites of a point, and what they bring to a wave vector.
    Site(Vec3, Wave),
    /// The verdict on a report.
    Check(Report<Number>),
    /// The summary of the small representations at a wave vector, with the number from which the input was made and
    /// the number of its lines.
    Summary(u32, u64, Wave),
}

/// The request with the section that it needs, where the input has it, and with the number of its lines.
pub(crate) fn task_of(
    request: &Request,
    sub: Option<SubSpec>,
    report: Option<Report<Number>>,
    lines: u64,
) -> Option<Task>
    requires limits { AreLimited (command_of request.now) }
    requires sections { IfSome sub IsLimitedSection }
    requires reports { IfSome report IsLimitedReport }
    ensures some { IfSome result (λ task. question_of request.now (sub_content sub) (content report) lines ≡ Some (asked_by task)) }
    ensures none { IsNone result → question_of request.now (sub_content sub) (content report) lines ≡ None }
    ensures limits { IfSome result IsLimited }
{
    match request {
        Request::Star(wave) => Some(Task::Star(*wave)),
        Request::Small(wave) => Some(Task::Small(*wave)),
        Request::Full(wave) => Some(Task::Full(*wave)),
        Request::Product(first, second) => Some(Task::Product(*first, *second)),
        Request::Subduce(wave) => match sub {
            Some(sub) => Some(Task::Subduce(*wave, sub)),
            None => None,
        },
        Request::Compat(first, second, third) => Some(Task::Compat(*first, *second, *third)),
        Request::Real(wave) => Some(Task::Real(*wave)),
        Request::Square(wave) => Some(Task::Square(*wave)),
        Request::Tensor(form) => Some(Task::Tensor(*form)),
        Request::Site(point, wave) => Some(Task::Site(*point, *wave)),
        Request::Check => match report {
            Some(report) => Some(Task::Check(report)),
            None => None,
        },
        Request::Gen(number) => Some(Task::Summary(*number, lines, made_wave(*number))),
    }
}
