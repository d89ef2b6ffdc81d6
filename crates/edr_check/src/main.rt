// Reads a quarterly stack report from standard input and prints what the check answers to it, or "too long", in one line.
#![tactic(auto)]

ghost use Rattle.std.specs.Prelude.{◌≡◌, ◌≤◌, length};
ghost use Rattle.columns.specs.Columns.{put};
ghost use Rattle.checker.specs.Checked.{checked};
ghost use Rattle.printing.specs.Printed.{printed, longest_line};
ghost use Rattle.edr_check.specs.Input.{ReadTo, input_of, returned};

use std::io;
use std::io::{Read, Stdin, Write};

// What the reads of standard input came to: so many bytes of report, and what the last read returned. That is the one that brought
// nothing, or, behind a report that fills its buffer, the read of one byte more.
#[derive(Drop)]
struct Reads {
    size: usize,
    last: io::Result<usize>,
}

// What standard input held: a report of so many bytes, more than fits, or what a read refused.
#[derive(Clone, Copy)]
enum Input {
    Report(usize),
    TooLong,
    Unreadable,
}

// Reads until the input ends or one byte more than the report holds has come.
fn read_report(input: &mut Stdin, report: &mut [u8]) -> Reads
    ensures { ReadTo (length report.old) result }
{
    let mut size = 0;
    // Each read says how far it came; there is no heap for `read_to_end`.
    while size < report.len() {
        match input.read(&mut report[size..]) {
            Ok(0) => {
                return Reads { size, last: Ok(0) };
            }
            Ok(more) => {
                size += more;
            }
            Err(error) => {
                return Reads {
                    size,
                    last: Err(error),
                };
            }
        }
    }
    let mut byte = [0u8; 1];
    let last = input.read(&mut byte);
    Reads { size, last }
}

// What it is taken for.
#[tactic(auto, unfolding(crate::specs::Input::input_of))]
fn input_of(size: usize, last: io::Result<usize>) -> Input
    ensures { result ≡ input_of size (returned last) }
{
    match last {
        Ok(0) => Input::Report(size),
        Ok(_) => Input::TooLong,
        Err(_) => Input::Unreadable,
    }
}

// The line that says what the check answers to a report. Returns its length.
fn answer_line(report: &[u8], line: &mut [u8]) -> usize
    requires { longest_line ≤ length line.old }
    ensures { (result ≡ length (printed (checked report.now))) × (result ≤ longest_line)
        × (line.new ≡ put 1 (printed (checked report.now)) line.old) }
{
    printing::print_answer(
        line,
        checker::check(report).map_err(|refusal| refusal.on_paper()),
    )
}

fn main(rt: HostRuntime) -> io::Result<()> {
    let mut report: [u8; 65536] = [0; 65536];
    let mut input = rt.stdin();
    let reads = read_report(&mut input, &mut report);
    match input_of(reads.size, reads.last) {
        Input::Report(size) => {
            let mut line = [0u8; printing::LONGEST_LINE];
            let length = answer_line(&report[..size], &mut line);
            rt.stdout().write_all(&line[..length])
        }
        Input::TooLong => rt.stdout().write_all(b"too long\n"),
        Input::Unreadable => rt.stderr().write_all(b"standard input cannot be read\n"),
    }
}
