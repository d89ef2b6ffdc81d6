// The first line of what is left of a file: its length, its type and its shape.
ghost use Rattle.std.specs.Prelude.{◌≡◌, ◌==◌, length, position};
ghost use Rattle.lines.specs.Lines.{first_line};
ghost use Rattle.lines.specs.LineFaults.{type_is, shape_fault};
ghost use Rattle.lines.specs.Beginning.{is_line};
ghost use Rattle.refusals.specs.Refusals.{fault_number, fault_in};

use layout::RecordType;
use refusals::Fault;

// Where the first byte 10 stands.
fn first_end(rest: &[u8]) -> Option<usize>
    ensures { result ≡ position (λ b. b == 10) rest.now }
{
    rest.iter().position(|b| *b == 10)
}

// How many bytes stand before it.
fn line_end(rest: &[u8]) -> usize
    ensures { result ≡ length (first_line rest.now) }
{
    first_end(rest).unwrap_or(rest.len())
}

pub fn type_is(rest: &[u8], t: RecordType) -> bool
    ensures { result ≡ type_is t (first_line rest.now) }
{
    if rest.len() < layout::TYPE_WIDTH {
        return false;
    }
    let digits = layout::type_digits(t);
    columns::same_bytes(&rest[..layout::TYPE_WIDTH], &digits)
}

// Whether what is left begins with so many printable bytes and byte 10.
fn is_line(rest: &[u8], long: usize) -> bool
    ensures { result ≡ is_line long rest.now }
{
    if rest.len() <= long {
        return false;
    }
    if rest[long] != 10 {
        return false;
    }
    columns::all_printable(&rest[..long])
}

// The type, the length and the bytes.
#[tactic(auto, unfolding(crate::specs::LineFaults::shape_fault))]
pub fn try_shape(rest: &[u8], t: RecordType) -> Result<(), Fault>
    ensures { fault_in fault_number result ≡ shape_fault t (first_line rest.now) }
{
    if !type_is(rest, t) {
        return Err(Fault::Type);
    }
    let long = layout::line_length(t);
    if is_line(rest, long) {
        return Ok(());
    }
    let end = line_end(rest);
    if end != long {
        return Err(Fault::Length);
    }
    if !columns::all_printable(&rest[..end]) {
        return Err(Fault::Byte);
    }
    Ok(())
}
