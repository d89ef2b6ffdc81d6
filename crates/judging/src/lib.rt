// How the hours and the totals of a quarter are judged, without a file and without a sheet.
#![tactic(auto)]

ghost use Rattle.std.specs.Prelude.{◌≡◌, eqb, map};
ghost use Rattle.exact.specs.Faults.{unless};
ghost use Rattle.refusals.specs.Refusals.{fault_number, fault_in, told};
ghost use Rattle.judging.specs.Judged.{row_told, failure_told, figure, figure_rows, type_named, totals_fault, compared_totals};

use formulas::hour::Quantity;
use layout::RecordType;
use refusals::Fault;
use totals::Quarter;

// What fails; where it is an hour's figure, that hour's rank from 0.
#[derive(Clone, Copy)]
pub struct Failure {
    pub fault: Fault,
    pub hour: Option<usize>,
}

// A figure of an hour as it is judged: its quantity, its refusal, and the type of the line on which it stands.
#[derive(Clone, Copy)]
pub struct FigureRow {
    pub quantity: Quantity,
    pub fault: Fault,
    pub record_type: RecordType,
}

fn figure(quantity: Quantity, fault: Fault, record_type: RecordType) -> FigureRow
    ensures { row_told result ≡ figure quantity (fault_number fault) record_type }
{
    FigureRow {
        quantity,
        fault,
        record_type,
    }
}

// The figures of an hour in the order of judging.
pub fn figures() -> [FigureRow; 4]
    ensures { map row_told result ≡ figure_rows }
{
    [
        figure(Quantity::Heat, Fault::HeatRate, RecordType::Operation),
        figure(Quantity::So2, Fault::So2Rate, RecordType::So2Mass),
        figure(Quantity::Nox, Fault::NoxRate, RecordType::NoxRate),
        figure(Quantity::Co2, Fault::Co2Rate, RecordType::Co2Mass),
    ]
}

// The type of the line that a refusal names by its number; a total's is that of line 301. A number, not a `Fault`: it answers for every number.
pub fn type_named(number: u64) -> RecordType
    ensures { result ≡ type_named number }
{
    for row in figures() {
        if row.fault.number() == number {
            return row.record_type;
        }
    }
    RecordType::QuarterTotals
}

// A total formed against the one stated on line 301.
fn try_total(formed: u64, stated: u64, fault: Fault) -> Result<(), Fault>
    ensures { fault_in fault_number result ≡ unless (eqb formed stated) (fault_number fault) }
{
    if formed == stated { Ok(()) } else { Err(fault) }
}

// The totals in the order of their columns.
#[tactic(auto, unfolding(exact::specs::Faults::first_failing), using(refusals::proofs::Numbers::fault_positive, refusals::proofs::Numbers::first_said))]
fn try_totals(formed: Quarter, stated: Quarter) -> Result<(), Fault>
    ensures { fault_in fault_number result ≡ totals_fault formed stated }
{
    try_total(formed.so2, stated.so2, Fault::So2Tons)?;
    try_total(formed.co2, stated.co2, Fault::Co2Tons)?;
    try_total(formed.heat, stated.heat, Fault::HeatInput)?;
    try_total(formed.nox, stated.nox, Fault::NoxMean)?;
    try_total(formed.nox_tons, stated.nox_tons, Fault::NoxTons)
}

// The totals formed against those stated.
#[tactic(auto, unfolding(crate::specs::Judged::compared_totals), using(refusals::proofs::Numbers::fault_positive, crate::proofs::JudgedLaws::failed_said))]
pub fn compare(formed: Quarter, stated: Quarter) -> Result<Quarter, Failure>
    ensures { told failure_told result ≡ compared_totals formed stated }
{
    match try_totals(formed, stated) {
        Ok(()) => Ok(formed),
        Err(fault) => Err(Failure { fault, hour: None }),
    }
}
