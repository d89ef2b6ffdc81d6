// Runs the check, the writer and the conversion on the cases of a file and prints what each answers, to be compared with what another implementation says.
#![tactic(auto)]

mod bytes_of;

ghost use Rattle.std.specs.Prelude.{◌≡◌, ℕ, ◌+◌, ◌*◌, ◌/◌, ◌<◌, ◌≤◌, length, set, IfOk};
ghost use Rattle.refusals.specs.Refusals.{told, write_number};
ghost use Rattle.outside.specs.Cases.{last_of, edited_by, Taken};

use bytes_of::{adler, byte_at, number_at, read_words, words_adler};
use refusals::WriteRefusal;
use std::fs::File;
use std::io::{Read, Stdout, Write};
use std::{fs, io};

// How many bytes a case takes, and the length of the last report written.
#[derive(Clone, Copy)]
struct Step {
    taken: usize,
    written: usize,
}

// A line that cannot be written is missing in what the program prints.
fn print_bytes(out: Stdout, bytes: &[u8]) {
    let mut out = out;
    let _written = out.write_all(bytes).is_ok();
}

fn print_check(out: Stdout, report: &[u8]) {
    let mut line = [0u8; printing::LONGEST_LINE];
    let answer = checker::check(report).map_err(|refusal| refusal.on_paper());
    let size = printing::print_answer(&mut line, answer);
    print_bytes(out, &line[..size]);
}

// A word, a number and the sum of what it is about.
fn print_sum(out: Stdout, word: &[u8], number: u64, sum: u64)
    requires { length word.now ≤ 8 }
{
    let mut line = [0u8; printing::LONGEST_LINE];
    let size = printing::print_line(&mut line, word, &[number, sum]);
    print_bytes(out, &line[..size]);
}

// Returns the length of the last report written, which is `last` where this one is refused.
fn print_written(
    out: Stdout,
    written: Result<usize, WriteRefusal>,
    buffer: &[u8],
    last: usize,
) -> usize
    requires { last_of (told write_number written) 0 ≤ length buffer.now }
    ensures { result ≡ last_of (told write_number written) last }
{
    match written {
        Ok(size) => {
            print_sum(out, b"written", size as u64, adler(buffer));
            print_check(out, &buffer[..size]);
            size
        }
        Err(refusal) => {
            print_sum(out, b"refused", refusal.number(), adler(buffer));
            last
        }
    }
}

// Writes the report of a case and a sheet.
fn write_sheet(case: &[u8], sheet: &[u32], buffer: &mut [u8]) -> Result<usize, WriteRefusal>
    ensures { last_of (told write_number result) 0 ≤ length buffer.old }
{
    // A byte that no report has.
    filling::fill_with(buffer, 0xA5);
    let name = [
        byte_at(case, 9),
        byte_at(case, 10),
        byte_at(case, 11),
        byte_at(case, 12),
        byte_at(case, 13),
        byte_at(case, 14),
    ];
    writer::write(
        number_at(case, 1) as u64,
        number_at(case, 5) as u64,
        name,
        sheet,
        buffer,
    )
}

// Converts a kept sheet, and says whether it is one to write.
fn convert_sheet(out: Stdout, sheet: &mut [u32]) -> bool {
    let converted = conversion::convert(sheet);
    let number = match converted {
        Ok(()) => 0,
        Err(refusal) => refusal.number(),
    };
    print_sum(out, b"words", number, words_adler(sheet));
    converted.is_ok()
}

// Reads a sheet, and converts it where it is a kept one. Says whether there is one to write.
fn read_sheet(out: Stdout, case: &[u8], sheet: &mut [u32]) -> bool
    requires { 23 + 4 * length sheet.old ≤ length case.now }
{
    read_words(&case[23..], sheet);
    byte_at(case, 0) != b'C' || convert_sheet(out, sheet)
}

// Reads and writes a sheet. Returns the length of the last report written.
fn run_sheet(out: Stdout, case: &[u8], sheet: &mut [u32], buffer: &mut [u8], last: usize) -> usize
    requires { 23 + 4 * length sheet.old ≤ length case.now }
    ensures { (long : ℕ) → last ≤ long → length buffer.old ≤ long → result ≤ long }
{
    if !read_sheet(out, case, sheet) {
        return last;
    }
    let answer = write_sheet(case, sheet, buffer);
    print_written(out, answer, buffer, last)
}

// A file to check. Returns how many bytes the case takes: all where it is damaged.
fn file_case(out: Stdout, case: &[u8]) -> usize
    requires { 0 < length case.now }
    ensures { (0 < result) × (result ≤ length case.now) }
{
    let end = 5 + number_at(case, 1);
    if case.len() < end {
        return case.len();
    }
    print_check(out, &case[5..end]);
    end
}

// A sheet to write, or a kept one to convert and write, into the first bytes of the buffer.
fn write_case(out: Stdout, case: &[u8], buffer: &mut [u8], last: usize) -> Step
    requires { (0 < length case.now) × (last ≤ length buffer.old) }
    ensures { Taken case.now buffer.old result }
{
    let room = number_at(case, 15);
    let count = number_at(case, 19);
    let end = 23 + 4 * count;
    let mut sheet = sheet_room();
    if case.len() < end || buffer.len() < room || 14000 < count {
        return Step {
            taken: case.len(),
            written: last,
        };
    }
    let written = run_sheet(out, case, &mut sheet[..count], &mut buffer[..room], last);
    Step {
        taken: end,
        written,
    }
}

// Beyond the end nothing is stored.
fn store(report: &mut [u8], place: usize, byte: u8)
    ensures { report.new ≡ set report.old place byte }
{
    if place < report.len() {
        report[place] = byte;
    }
}

// Each edit is a place in the report and the byte that is to stand there.
#[tactic(auto, using(crate::proofs::Laws::edited_more, crate::proofs::Laws::edited_none))]
fn edit(edits: &[u8], report: &mut [u8])
    ensures { report.new ≡ edited_by (length edits.now / 5) edits.now report.old }
{
    for i in 0..edits.len() / 5 {
        store(report, number_at(edits, 5 * i), edits[5 * i + 4]);
    }
}

// Edits of the last report written. Returns how many bytes the case takes.
fn edit_case(out: Stdout, case: &[u8], report: &mut [u8]) -> usize
    requires { 0 < length case.now }
    ensures { (0 < result) × (result ≤ length case.now) }
{
    let end = 5 + 5 * number_at(case, 1);
    if case.len() < end {
        return case.len();
    }
    edit(&case[5..end], report);
    print_check(out, report);
    end
}

fn run_case(out: Stdout, case: &[u8], buffer: &mut [u8], last: usize) -> Step
    requires { (0 < length case.now) × (last ≤ length buffer.old) }
    ensures { Taken case.now buffer.old result }
{
    match byte_at(case, 0) {
        b'W' | b'C' => write_case(out, case, buffer, last),
        b'P' => Step {
            taken: edit_case(out, case, &mut buffer[..last]),
            written: last,
        },
        b'F' => Step {
            taken: file_case(out, case),
            written: last,
        },
        _ => Step {
            taken: case.len(),
            written: last,
        },
    }
}

fn run_cases(out: Stdout, data: &[u8], buffer: &mut [u8]) {
    let mut at = 0;
    let mut written = 0;
    // Each case says how far the next one is.
    while at < data.len() {
        let step = run_case(out, &data[at..], buffer, written);
        at += step.taken;
        written = step.written;
    }
}

// Room for six words to each of the 2,208 hours of the longest quarter, and some more.
fn sheet_room() -> [u32; 14000]
    ensures { 14000 ≡ length result }
{
    [0; 14000]
}

// Room for the cases.
fn data_room() -> [u8; 4000000]
    ensures { 4000000 ≡ length result }
{
    [0; 4000000]
}

// Room for the longest report, and some more.
fn report_room() -> [u8; 703000]
    ensures { 703000 ≡ length result }
{
    [0; 703000]
}

// Fills the data from a file as far as both go. Returns how many bytes came.
fn read_data(file: &mut File, data: &mut [u8]) -> io::Result<usize>
    ensures { IfOk result (λ n. n ≤ length data.old) }
{
    let mut size = 0;
    // Each read says how far it came; there is no heap for `read_to_end`.
    while size < data.len() {
        let more = file.read(&mut data[size..])?;
        if more == 0 {
            return Ok(size);
        }
        size += more;
    }
    Ok(size)
}

fn main(rt: HostRuntime) -> io::Result<()> {
    let mut data = data_room();
    let mut buffer = report_room();
    let Ok(mut file) = fs::open(&rt, "cases.bin") else {
        return rt.stderr().write_all(b"the cases cannot be read\n");
    };
    let size = read_data(&mut file, &mut data)?;
    run_cases(rt.stdout(), &data[..size], &mut buffer);
    Ok(())
}
