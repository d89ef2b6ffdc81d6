// The line that the program prints for an answer.
#![tactic(auto)]

ghost use Rattle.std.specs.Prelude.{◌≡◌, ◌+◌, ◌≤◌, length};
ghost use Rattle.columns.specs.Columns.{put};
ghost use Rattle.printing.specs.Printed.{digit_count, spaced, printed_line, printed, longest_line};
ghost use Rattle.printing.specs.Room.{NumberRoom, LineRoom};

use refusals::PaperRefusal;
use totals::Quarter;

// The longest line: a word of eight letters, six spaces and numbers of 20 digits, and byte 10.
pub const LONGEST_LINE: usize = 8 + 6 * 21 + 1;

fn digit_count(value: u64) -> usize
    ensures { (result ≡ digit_count value) × (result ≤ 20) }
{
    let mut count = 1;
    let mut rest = value;
    // Divisions are counted, and no places of a list.
    while 10 <= rest {
        rest = rest / 10;
        count += 1;
    }
    count
}

// A space and a number from a column on. Returns the column behind them. Not by `write!`: only `filling` makes bytes of numbers, so that the contract has
// every byte of the lent line.
fn print_number(line: &mut [u8], column: usize, value: u64) -> usize
    requires { NumberRoom column line.old }
    ensures { (result ≡ column + length (spaced value)) × (result ≤ column + 21) × (line.new ≡ put column (spaced value) line.old) }
{
    let count = digit_count(value);
    filling::write_bytes(line, column, b" ");
    filling::write_digits(line, column + 1, count, value);
    column + 1 + count
}

// A word and up to six numbers, from the first column on. Returns the length of the line.
pub fn print_line(line: &mut [u8], word: &[u8], numbers: &[u64]) -> usize
    requires { LineRoom word.now numbers.now line.old }
    ensures { (result ≡ length (printed_line word.now numbers.now)) × (result ≤ longest_line)
        × (line.new ≡ put 1 (printed_line word.now numbers.now) line.old) }
{
    filling::write_bytes(line, 1, word);
    let mut column = 1 + word.len();
    for number in numbers {
        column = print_number(line, column, *number);
    }
    filling::write_bytes(line, column, b"\n");
    column
}

// Returns the length of the line. A refusal is here the paper's two numbers, which may be any.
pub fn print_answer(line: &mut [u8], answer: Result<Quarter, PaperRefusal>) -> usize
    requires { longest_line ≤ length line.old }
    ensures { (result ≡ length (printed answer)) × (result ≤ longest_line) × (line.new ≡ put 1 (printed answer) line.old) }
{
    match answer {
        Ok(quarter) => print_line(
            line,
            b"accepted",
            &[
                quarter.hours,
                quarter.so2,
                quarter.co2,
                quarter.heat,
                quarter.nox,
                quarter.nox_tons,
            ],
        ),
        Err(refusal) => print_line(line, b"refused", &[refusal.number, refusal.line as u64]),
    }
}
