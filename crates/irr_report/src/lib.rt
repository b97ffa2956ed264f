//! Reports of small representations as text.
#![tactic(auto)]

mod laws;
mod lines;
mod print;
mod read;
mod report;
mod scale;
mod stage;
mod steps;
mod values;
mod words;

pub use irr_memory::Memory;
pub use laws::{
    lines_are_text, one_answer_for_each_report, one_report_is_written, printed_reports_are_read,
    printed_reports_have_lines, read_reports_are_limited, small_reports_are_read,
    small_reports_pass_no_limit,
};
pub use print::{print_report, push_operations};
pub use read::read_report;
pub use report::{RepText, Report, ReportError};

#[cfg(test)]
mod tests;
