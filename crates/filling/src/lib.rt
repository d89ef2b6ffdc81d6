// Numbers put into fixed columns of a line, counted from 1: digit by digit, from the last to the first, with no buffer between.
#![tactic(auto)]

ghost use Rattle.std.specs.Prelude.{◌≡◌, ◌+◌, ◌/◌, ◌≤◌, ◌<◌, ◌^◌, length, replicate};
ghost use Rattle.columns.specs.Columns.{Inside, put};
ghost use Rattle.columns.specs.Number.{fewest_columns};
ghost use Rattle.columns.specs.Written.{digit_or_blank, digits_of, leading, whole_written, fixed_written, written};

// Fills a field with the last digits of a number, and returns the number in front of them.
fn fill_digits(field: &mut [u8], value: u64) -> u64
    ensures { (field.new ≡ digits_of (length field.old) value) × (result ≡ value / 10 ^ length field.old) }
{
    let mut rest = value;
    for place in (0..field.len()).rev() {
        field[place] = b'0' + (rest % 10) as u8;
        rest /= 10;
    }
    rest
}

pub fn write_digits(line: &mut [u8], start: usize, width: usize, value: u64)
    requires { Inside start width line.old }
    ensures { line.new ≡ put start (digits_of width value) line.old }
{
    let from = start - 1;
    fill_digits(&mut line[from..from + width], value);
}

// The last digit of a number, and a blank where no digit is left.
#[tactic(auto, using(crate::proofs::Fields::blank_byte, crate::proofs::Fields::digit_byte))]
fn digit_or_blank(value: u64) -> u8
    ensures { result ≡ digit_or_blank value }
{
    if value == 0 {
        return b' ';
    }
    b'0' + (value % 10) as u8
}

// Fills a field with the digits of a number, as far as there are any, and blanks in front.
fn fill_leading(field: &mut [u8], value: u64)
    ensures { field.new ≡ leading (length field.old) value }
{
    let mut rest = value;
    for place in (0..field.len()).rev() {
        field[place] = digit_or_blank(rest);
        rest /= 10;
    }
}

fn fill_whole(field: &mut [u8], value: u64)
    requires { 0 < length field.old }
    ensures { field.new ≡ whole_written (length field.old) value }
{
    let last = field.len() - 1;
    field[last] = b'0' + (value % 10) as u8;
    fill_leading(&mut field[..last], value / 10);
}

fn fill_fixed(field: &mut [u8], decimals: usize, value: u64)
    requires { decimals + 2 ≤ length field.old }
    ensures { field.new ≡ fixed_written (length field.old) decimals value }
{
    let point = field.len() - 1 - decimals;
    let whole = fill_digits(&mut field[point + 1..], value);
    field[point] = b'.';
    fill_whole(&mut field[..point], whole);
}

// Puts a number with so many decimals into a field of a line.
pub fn write_number(line: &mut [u8], start: usize, width: usize, decimals: usize, value: u64)
    requires inside { Inside start width line.old }
    requires decimals_bound { fewest_columns decimals ≤ width }
    ensures { line.new ≡ put start (written width decimals value) line.old }
{
    let from = start - 1;
    if decimals == 0 {
        fill_whole(&mut line[from..from + width], value);
        return;
    }
    fill_fixed(&mut line[from..from + width], decimals, value);
}

// Byte by byte: with `copy_from_slice` the writer is no longer compiled into one function, and a report takes 3.4 times the instructions.
pub fn write_bytes(line: &mut [u8], start: usize, bytes: &[u8])
    requires { Inside start (length bytes.now) line.old }
    ensures { line.new ≡ put start bytes.now line.old }
{
    let from = start - 1;
    for (i, byte) in bytes.iter().enumerate() {
        line[from + i] = *byte;
    }
}

// Every byte becomes this one.
pub fn fill_with(part: &mut [u8], byte: u8)
    ensures { part.new ≡ replicate (length part.old) byte }
{
    part.fill(byte);
}
