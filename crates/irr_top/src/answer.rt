// From a request and the bytes of an input to what is written.
ghost use Rattle.std.specs.Prelude.{ℕ, ◌≡◌, ◌+◌, ◌≤◌, None, Some, List, IfOk, IfErr, IfSome, length};
ghost use Rattle.std.specs.List.{All};
ghost use Rattle.irr_io.specs.Count.{CountsAtMost};
ghost use Rattle.irr_io.specs.Views.{IsAtEnd};
ghost use Rattle.irr_seitz.specs.OperationMeaning.{operation};
ghost use Rattle.irr_seitz.specs.declared.op.Op.{Op};
ghost use Rattle.irr_triplet.specs.Readable.{IsReadable};
ghost use Rattle.irr_report.specs.Limits.{IsWithinLimits as IsLimitedReport};
ghost use Rattle.irr_input.specs.Command.{AreLimited};
ghost use Rattle.irr_input.specs.InputLines.{content, sub_content};
ghost use Rattle.irr_top.specs.Request.{command_of, made_number as made_of};
ghost use Rattle.irr_top.specs.GroupOf.{IsGroupOf, group_of};
ghost use Rattle.irr_top.specs.Answer.{AsksOfGroup, IsReplied, IsNoReply};
ghost use Rattle.irr_top.specs.Asked.{AsksOfRequest, AsksOfBytes, AsksOfLines, AsksOfInput, AsksOfGenerators, input_limit, operations_of};
ghost use Rattle.irr_top.specs.PassedLimit.{passed_limit};
ghost use Rattle.irr_top.specs.Sections.{IsLimitedSection};
ghost use Rattle.irr_top.specs.Outcome.{OutcomeOf, Serves};
ghost use Rattle.irr_top.specs.Task.{asked_by, IsLimited};
ghost use Rattle.irr_top.specs.declared.status.Status.TheVariants.{Done, ReadFault};

use crate::check::check_reply;
use crate::compat::compat_reply;
use crate::full::full_reply;
use crate::made::made_reply;
use crate::product::product_reply;
use crate::real::real_reply;
use crate::refusal::{finish, refuse};
use crate::reply::{NoReply, Reply};
use crate::request::{Request, made_number};
use crate::site::site_reply;
use crate::small::small_reply;
use crate::square::square_reply;
use crate::star::star_reply;
use crate::status::{Kind, Status};
use crate::subduce::subduce_reply;
use crate::task::{Number, Task, task_of};
use crate::tensor::tensor_reply;
use irr_close::{CloseError, Group, close};
use irr_gen::make;
use irr_input::{GenLine, Input, InputError, Reason, read_input};
use irr_io::{InFault, Sink, Source, read_all};
use irr_memory::Memory;
use irr_seitz::{Op, Phase};
use std::alloc::Global;

// The most bytes of input.
const INPUT_LIMIT: usize = 4_194_304;

/// Serves a request: reads its input to its end, or makes it, and writes what is asked for.
pub(crate) fn answer<I: Source, O: Sink>(
    alloc: Global,
    request: &Request,
    source: &mut I,
    sink: &mut O,
) -> Status
    requires limits { AreLimited (command_of request.now) }
    ensures outcome { OutcomeOf (AsksOfRequest request.now)
        (I.view source.old) (I.view source.new) (O.view sink.old) (O.view sink.new) result }
    ensures fault { result ≡ ReadFault → made_of request.now ≡ None }
    ensures end { made_of request.now ≡ None → result ≡ Done → IsAtEnd (I.view source.new) }
    ensures unread { ¬ (made_of request.now ≡ None) → I.view source.new ≡ I.view source.old }
    ensures reads { CountsAtMost (input_limit + 2) (I.view source.old).reads (I.view source.new).reads }
{
    match made_number(request) {
        Some(number) => answer_made(alloc, request, number, sink),
        None => answer_read(alloc, request, source, sink),
    }
}

// Serves a request on the made input of its number.
fn answer_made<O: Sink>(alloc: Global, request: &Request, number: u32, sink: &mut O) -> Status
    requires limits { AreLimited (command_of request.now) }
    requires made { made_of request.now ≡ Some number }
    ensures { (bytes : List ℕ)
        → Serves (AsksOfRequest request.now bytes) (O.view sink.old) (O.view sink.new) result }
{
    match make(alloc, number) {
        Ok(made) => answer_bytes(alloc, request, &made.text, sink),
        Err(_) => Status::Memory,
    }
}

// Serves a request on an input of these bytes.
fn answer_bytes<O: Sink>(alloc: Global, request: &Request, bytes: &[u8], sink: &mut O) -> Status
    requires limits { AreLimited (command_of request.now) }
    ensures { Serves (AsksOfBytes request.now bytes.now) (O.view sink.old) (O.view sink.new) result }
{
    if bytes.len() > INPUT_LIMIT {
        return refuse(alloc, Status::TooLarge(Kind::Bytes), sink);
    }
    answer_lines(alloc, request, bytes, sink)
}

// Serves a request: reads the input to its end, and writes what is asked for.
fn answer_read<I: Source, O: Sink>(
    alloc: Global,
    request: &Request,
    source: &mut I,
    sink: &mut O,
) -> Status
    requires limits { AreLimited (command_of request.now) }
    ensures outcome { OutcomeOf (AsksOfBytes request.now)
        (I.view source.old) (I.view source.new) (O.view sink.old) (O.view sink.new) result }
    ensures end { result ≡ Done → IsAtEnd (I.view source.new) }
    ensures reads { CountsAtMost (input_limit + 2) (I.view source.old).reads (I.view source.new).reads }
{
    match read_all(alloc, source, INPUT_LIMIT) {
        Ok(bytes) => answer_lines(alloc, request, &bytes, sink),
        Err(InFault::Read) => Status::ReadFault,
        Err(InFault::TooLong) => refuse(alloc, Status::TooLarge(Kind::Bytes), sink),
        Err(InFault::Memory) => Status::Memory,
    }
}

// Answers a request, on an input of these bytes.
fn answer_lines<O: Sink>(alloc: Global, request: &Request, bytes: &[u8], sink: &mut O) -> Status
    requires within { length bytes.now ≤ input_limit }
    requires limits { AreLimited (command_of request.now) }
    ensures { Serves (AsksOfLines request.now bytes.now) (O.view sink.old) (O.view sink.new) result }
{
    match read_input::<Number>(alloc, bytes) {
        Ok(input) => answer_input(alloc, request, input, sink),
        Err(InputError::Bad { line, reason }) => {
            refuse(alloc, Status::BadInput { line, reason }, sink)
        }
        Err(InputError::ReportRange { line }) => {
            refuse(alloc, Status::TooLarge(Kind::Report(line)), sink)
        }
        Err(InputError::Memory) => Status::Memory,
    }
}

// Answers a request, on an input of these generators, perhaps a subgroup and perhaps a report.
fn answer_input<O: Sink>(
    alloc: Global,
    request: &Request,
    input: Input<Number>,
    sink: &mut O,
) -> Status
    requires readable { All (λ g. IsReadable (operation g.op)) input.gens.items }
    requires sections { IfSome input.sub IsLimitedSection }
    requires reports { IfSome input.report IsLimitedReport }
    requires few { input.lines ≤ input_limit }
    requires limits { AreLimited (command_of request.now) }
    ensures { Serves (AsksOfInput request.now (operations_of input.gens.items) (sub_content input.sub) (content input.report) input.lines)
        (O.view sink.old) (O.view sink.new) result }
{
    match task_of(request, input.sub, input.report, input.lines) {
        Some(task) => answer_task(alloc, &task, &input.gens, sink),
        None => {
            let status = Status::BadInput {
                line: input.lines + 1,
                reason: Reason::Missing,
            };
            refuse(alloc, status, sink)
        }
    }
}

// Answers a task, with the generators on these lines.
fn answer_task<O: Sink>(alloc: Global, task: &Task, lines: &[GenLine], sink: &mut O) -> Status
    requires readable { All (λ g. IsReadable (operation g.op)) lines.now }
    requires limits { IsLimited task.now }
    ensures { Serves (AsksOfGenerators (asked_by task.now) (operations_of lines.now))
        (O.view sink.old) (O.view sink.new) result }
{
    match operations(alloc, lines) {
        Ok(gens) => answer_generators(alloc, task, &gens, sink),
        Err(_) => Status::Memory,
    }
}

/// The operations on these lines.
pub(crate) fn operations(alloc: Global, lines: &[GenLine]) -> Result<Vec<Op>, Memory>
    ensures { IfOk result (λ ops. ops.items ≡ operations_of lines.now) }
{
    let mut ops = Vec::new(alloc);
    for line in lines {
        ops.push(line.op)?;
    }
    Ok(ops)
}

// Answers a task, with these generators.
fn answer_generators<O: Sink>(alloc: Global, task: &Task, gens: &[Op], sink: &mut O) -> Status
    requires readable { All (λ g. IsReadable (operation g)) gens.now }
    requires limits { IsLimited task.now }
    ensures { Serves (AsksOfGenerators (asked_by task.now) gens.now) (O.view sink.old) (O.view sink.new) result }
{
    match close(alloc, gens, Phase::Minus) {
        Ok(group) => answer_group(alloc, task, &group, sink),
        Err(error) => match limit_of(error) {
            Some(kind) => refuse(alloc, Status::TooLarge(kind), sink),
            None => Status::Memory,
        },
    }
}

// The limit that generators pass where they are refused, and none at want of memory.
fn limit_of(error: CloseError) -> Option<Kind>
    ensures { result ≡ passed_limit error }
{
    match error {
        CloseError::Rotations => Some(Kind::Rotations),
        CloseError::Denominator => Some(Kind::Denominator),
        CloseError::Centrings => Some(Kind::Centrings),
        CloseError::Memory => None,
    }
}

// Answers a task, with this group.
fn answer_group<O: Sink>(alloc: Global, task: &Task, group: &Group, sink: &mut O) -> Status
    requires group { (gens : List Op) × IsGroupOf group.now gens }
    requires limits { IsLimited task.now }
    ensures { (gens : List Op) → IsGroupOf group.now gens
        → Serves (AsksOfGroup (asked_by task.now) (group_of gens)) (O.view sink.old) (O.view sink.new) result }
{
    match reply_of(alloc, task, group) {
        Ok(reply) => finish(reply.status, &reply.text, sink),
        Err(NoReply::OrderTooLarge(order)) => {
            refuse(alloc, Status::TooLarge(Kind::Order(order)), sink)
        }
        Err(NoReply::Memory) => Status::Memory,
    }
}

// The reply to a task, with this group.
fn reply_of(alloc: Global, task: &Task, group: &Group) -> Result<Reply, NoReply>
    requires group { (gens : List Op) × IsGroupOf group.now gens }
    requires limits { IsLimited task.now }
    ensures reply { (gens : List Op) → IsGroupOf group.now gens
        → IfOk result (IsReplied (asked_by task.now) (group_of gens)) }
    ensures none { (gens : List Op) → IsGroupOf group.now gens
        → IfErr result (IsNoReply (asked_by task.now) (group_of gens)) }
{
    match task {
        Task::Star(wave) => star_reply(alloc, group, wave),
        Task::Small(wave) => small_reply(alloc, group, wave),
        Task::Full(wave) => full_reply(alloc, group, wave),
        Task::Product(first, second) => product_reply(alloc, group, first, second),
        Task::Subduce(wave, section) => subduce_reply(alloc, group, wave, section),
        Task::Compat(first, second, third) => compat_reply(alloc, group, first, second, third),
        Task::Real(wave) => real_reply(alloc, group, wave),
        Task::Square(wave) => square_reply(alloc, group, wave),
        Task::Tensor(form) => tensor_reply(alloc, group, *form),
        Task::Site(point, wave) => site_reply(alloc, group, point, wave),
        Task::Check(report) => check_reply(alloc, group, report),
        Task::Summary(number, lines, wave) => made_reply(alloc, group, *number, *lines, wave),
    }
}
