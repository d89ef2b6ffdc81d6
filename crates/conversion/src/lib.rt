// Sheets that plants have kept, of the first form, made into the present one: the flow word, which had scfh, counts thousands.
#![tactic(auto)]

ghost use Rattle.std.specs.Prelude.{◌≡◌};
ghost use Rattle.refusals.specs.Refusals.{told, fault_in, convert_number};
ghost use Rattle.conversion.specs.Conversion.{kind_right, flow_right, each_word, conversion_refusal, recoded, recoded_from};
ghost use Rattle.conversion.specs.Conversion.{converted, conversion_answer, converted_number};
ghost use Rattle.conversion.specs.ConversionPromise.{ConversionPromise};

use layout::values;
use refusals::ConvertRefusal;

// The first form: six words to an hour, each its kind times this and its value; the fifth is the flow.
const HOUR_WORDS: usize = 6;

const VALUE_SIZE: u64 = 536870912;

const FLOW_PLACE: usize = 4;

fn kind_right(place: usize, word: u32) -> bool
    ensures { result ≡ kind_right place word }
{
    u64::from(word) / VALUE_SIZE == place as u64
}

fn flow_right(place: usize, word: u32) -> bool
    ensures { result ≡ flow_right place word }
{
    place != FLOW_PLACE || values::whole_steps(values::FLOW_SCFH, u64::from(word) % VALUE_SIZE)
}

// The word of a place in the present form.
fn recoded_word(place: usize, word: u32) -> u32
    ensures { result ≡ recoded place word }
{
    if place != FLOW_PLACE {
        return word;
    }
    sheet::word_of(
        sheet::FLOW_KIND,
        values::thousands_of(u64::from(word) % VALUE_SIZE),
    )
}

// 31 and 50, each over the whole sheet before the next.
fn try_sheet(sheet: &[u32]) -> Result<(), ConvertRefusal>
    ensures { fault_in convert_number result ≡ conversion_refusal sheet.now }
{
    if sheet.len() % HOUR_WORDS != 0 || (sheet.len() / HOUR_WORDS) as u64 > calendar::MOST_HOURS {
        return Err(ConvertRefusal::Sheet);
    }
    let mut flows = true;
    for (i, word) in sheet.iter().enumerate() {
        let place = i % HOUR_WORDS;
        if !kind_right(place, *word) {
            return Err(ConvertRefusal::Sheet);
        }
        flows &= flow_right(place, *word);
    }
    if !flows {
        return Err(ConvertRefusal::Thousands);
    }
    Ok(())
}

fn recode(sheet: &mut [u32])
    ensures { sheet.new ≡ recoded_from 0 sheet.old }
{
    for (i, word) in sheet.iter_mut().enumerate() {
        *word = recoded_word(i % HOUR_WORDS, *word);
    }
}

// Converts a kept sheet, once: its words would pass for the first form again. A refusal changes no word.
pub fn convert(sheet: &mut [u32]) -> Result<(), ConvertRefusal>
    ensures { (told convert_number result ≡ conversion_answer sheet.old) × (sheet.new ≡ converted sheet.old)
        × ConversionPromise sheet.old (converted_number (told convert_number result)) sheet.new }
{
    try_sheet(sheet)?;
    recode(sheet);
    Ok(())
}
