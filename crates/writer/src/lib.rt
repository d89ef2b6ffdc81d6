// The writer: a sheet of readings becomes a quarterly report in a lent buffer.
#![tactic(auto)]

mod checks;
mod report;

ghost use Rattle.std.specs.Prelude.{◌≡◌, length};
ghost use Rattle.refusals.specs.Refusals.{told, write_number};
ghost use Rattle.writer.specs.Written.{answered, buffered};

use refusals::WriteRefusal;

// Writes the report of a sheet to the front of the buffer, and returns its length; a refusal changes no byte.
#[tactic(auto, using(crate::proofs::Answer::answering))]
pub fn write(
    year: u64,
    quarter: u64,
    name: [u8; layout::STACK_WIDTH],
    sheet: &[u32],
    buffer: &mut [u8],
) -> Result<usize, WriteRefusal>
    ensures { (told write_number result ≡ answered year quarter name sheet.now (length buffer.old))
        × (buffer.new ≡ buffered year quarter name sheet.now buffer.old) }
{
    checks::try_sheet(&name, sheet, year, quarter, buffer.len())?;
    report::write_report(buffer, &name, sheet, year, quarter);
    Ok(layout::report_length(sheet::shape_of(sheet)))
}
