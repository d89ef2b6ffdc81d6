// Numbers in fixed columns of a line, counted from 1, as they are read.
#![tactic(auto)]

ghost use Rattle.std.specs.Prelude.{◌≡◌, ◌+◌, ◌*◌, ◌^◌, ◌<◌, ◌≤◌, true, length};
ghost use Rattle.columns.specs.Bytes.{is_blank, is_printable, all, same};
ghost use Rattle.columns.specs.Columns.{Inside, columns};
ghost use Rattle.columns.specs.Number.{digits_from, digits_only, whole_of, fixed_of, field_of, number_of, digits_held};
ghost use Rattle.columns.specs.Worth.{low_from, fixed_worth, worth_of};
ghost use Rattle.columns.specs.Picture.{FitsFrom, Fits};

// What a field of columns holds.
#[derive(Clone, Copy, PartialEq, Eq, Debug)]
pub enum Field {
    Blank,
    Malformed,
    Number(u64),
}

// These two look at every byte, whatever was found, so that the compiler can take many at a time.

// With `a == b` the check of a full quarter takes 15 % more instructions.
#[tactic(auto, using(crate::proofs::Reading::same_lengths))]
pub fn same_bytes(a: &[u8], b: &[u8]) -> bool
    ensures { result ≡ same a.now b.now }
{
    a.len() == b.len() && a.iter().zip(b).fold(true, |fine, (x, y)| fine & (x == y))
}

fn block_printable(bytes: &[u8]) -> bool
    ensures { result ≡ all is_printable bytes.now }
{
    let mut fine = true;
    for b in bytes {
        fine &= (b' ' <= *b) & (*b <= b'~');
    }
    fine
}

// How many bytes are taken at a time.
const BLOCK: usize = 16;

// Block by block; the last one ends with the last byte, and may overlap the one before it.
pub fn all_printable(bytes: &[u8]) -> bool
    ensures { result ≡ all is_printable bytes.now }
{
    if bytes.len() < BLOCK {
        return block_printable(bytes);
    }
    let last = bytes.len() - BLOCK;
    for k in 0..last.div_ceil(BLOCK) {
        let from = k * BLOCK;
        if !block_printable(&bytes[from..from + BLOCK]) {
            return false;
        }
    }
    block_printable(&bytes[last..])
}

pub fn all_blank(bytes: &[u8]) -> bool
    ensures { result ≡ all is_blank bytes.now }
{
    bytes.iter().all(|b| *b == b' ')
}

// Digits to the end, behind digits worth `before`.
#[tactic(auto, using(crate::proofs::Digits::left_first, crate::proofs::Digits::left_stop, crate::proofs::Digits::left_room, crate::proofs::Digits::left_end))]
fn digits_behind(before: u64, bytes: &[u8]) -> Field
    requires { (before + 1) * 10 ^ length bytes.now ≤ 10 ^ 18 }
    ensures { result ≡ digits_from before bytes.now }
{
    let mut value = before;
    for b in bytes {
        // Of a digit its value; what comes before the digits wraps round and is greater than 9 too.
        let digit = b.wrapping_sub(b'0');
        if 9 < digit {
            return Field::Malformed;
        }
        value = value * 10 + u64::from(digit);
    }
    Field::Number(value)
}

fn whole_number(bytes: &[u8]) -> Field
    requires { length bytes.now ≤ 18 }
    ensures { result ≡ whole_of bytes.now }
{
    match bytes.iter().position(|b| *b != b' ') {
        Some(first) => digits_behind(0, &bytes[first..]),
        None => Field::Blank,
    }
}

#[tactic(auto, using(crate::proofs::Reading::fixed_number, crate::proofs::Reading::fixed_pointless, crate::proofs::Reading::fixed_malformed, crate::proofs::Reading::fixed_blanks, crate::proofs::Reading::fixed_room))]
fn fixed_number(bytes: &[u8], decimals: usize) -> Field
    requires { (decimals < length bytes.now) × (length bytes.now ≤ 18) }
    ensures { result ≡ fixed_of decimals bytes.now }
{
    let point = bytes.len() - 1 - decimals;
    match whole_number(&bytes[..point]) {
        Field::Number(before) if bytes[point] == b'.' => digits_behind(before, &bytes[point + 1..]),
        Field::Blank if all_blank(&bytes[point..]) => Field::Blank,
        _ => Field::Malformed,
    }
}

// The number in a field, 0 where there is none.
pub fn number_of(field: Field) -> u64
    ensures { result ≡ number_of field }
{
    match field {
        Field::Number(k) => k,
        Field::Malformed | Field::Blank => 0,
    }
}

// The number with so many decimals in a field of a line.
pub fn read_number(line: &[u8], start: usize, width: usize, decimals: usize) -> Field
    requires inside { Inside start width line.now }
    requires decimals_lt_width { (decimals < width) × (width ≤ 18) }
    ensures { (result ≡ field_of decimals (columns start width line.now)) × (number_of result < 10 ^ digits_held decimals width) }
{
    let from = start - 1;
    let field = &line[from..from + width];
    if decimals == 0 {
        return whole_number(field);
    }
    fixed_number(field, decimals)
}

// The number in columns that are digits only.
pub fn read_digits(line: &[u8], start: usize, width: usize) -> Field
    requires inside { Inside start width line.now }
    requires width_bound { width ≤ 18 }
    ensures { (result ≡ digits_only (columns start width line.now)) × (number_of result < 10 ^ width) }
{
    let from = start - 1;
    digits_behind(0, &line[from..from + width])
}

// What bytes are worth as digits, each by its low four bits, behind digits worth `before`: a blank counts as 0. The loop is not shared with
// `digits_behind`, where a byte may end it, and where the room is another.
fn low_digits(before: u64, bytes: &[u8]) -> u64
    requires { (before + 2) * 10 ^ length bytes.now ≤ 2 * 10 ^ 18 }
    ensures { (result ≡ low_from before bytes.now) × (result + 2 ≤ (before + 2) * 10 ^ length bytes.now) }
{
    let mut value = before;
    for b in bytes {
        value = value * 10 + u64::from(*b % 16);
    }
    value
}

// The same of a field with decimals: the point is passed over.
fn fixed_worth(bytes: &[u8], decimals: usize) -> u64
    requires { (decimals < length bytes.now) × (length bytes.now ≤ 18) }
    ensures { result ≡ fixed_worth decimals bytes.now }
{
    let point = bytes.len() - 1 - decimals;
    let whole = low_digits(0, &bytes[..point]);
    low_digits(whole, &bytes[point + 1..])
}

// The number in a field that holds one, or nothing: no byte decides what is done with the next.
pub fn worth(line: &[u8], start: usize, width: usize, decimals: usize) -> u64
    requires inside { Inside start width line.now }
    requires decimals_lt_width { (decimals < width) × (width ≤ 18) }
    ensures { result ≡ worth_of decimals (columns start width line.now) }
{
    let from = start - 1;
    let field = &line[from..from + width];
    if decimals == 0 {
        return low_digits(0, field);
    }
    fixed_worth(field, decimals)
}

// A block of columns, by their picture. Every column is looked at, whatever was found, so that the compiler can take many at a time.
fn block_fits(line: &[u8], picture: &[u8], from: usize) -> bool
    requires { (from + 16 ≤ length picture.now) × (length picture.now < length line.now) }
    ensures { result ≡ true → FitsFrom from (from + 16) picture.now line.now }
{
    let mut fine = true;
    for i in 0..BLOCK {
        let at = from + i;
        let p = picture[at];
        let b = line[at];
        let next = line[at + 1];
        let digit = (b'0' <= b) & (b <= b'9') & ((p == b'9') | ((p == b' ') & (b'0' <= next)));
        let any = (p == b'~') & ((b' ' <= b) & (b <= b'~'));
        fine &= (b == p) | digit | any;
    }
    fine
}

// Whether a line, of which more is left, begins as its picture says: the block that ends with the picture's last column first, since values
// stand at the end of lines, then block by block.
pub fn fits(line: &[u8], picture: &[u8]) -> bool
    requires { length picture.now < length line.now }
    ensures { result ≡ true → Fits picture.now line.now }
{
    if picture.len() < BLOCK {
        return false;
    }
    let last = picture.len() - BLOCK;
    if !block_fits(line, picture, last) {
        return false;
    }
    for k in 0..last.div_ceil(BLOCK) {
        if !block_fits(line, picture, k * BLOCK) {
            return false;
        }
    }
    true
}
