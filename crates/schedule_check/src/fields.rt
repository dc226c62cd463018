ghost use Rattle.std.specs.Prelude.{◌≡◌, Ok, Err, MatchResult, option_map};
ghost use Rattle.csv.specs.Records.{fields_of};
ghost use Rattle.schedule_check.specs.Plan.{booking_of};
ghost use Rattle.schedule_check.specs.Reading.{booking_in, is_header, is_word, number_due};

use crate::placement::Placement;
use crate::plan_fault::{PlanFault, PlanKind};
use csv::ByteRecord;
use rc_edge::{NumberFault, read_number};

/// Whether a record begins with the words of the header.
#[tactic(auto, unfolding(crate::specs::Reading::is_header))]
pub(crate) fn is_header(fields: &ByteRecord) -> bool
    ensures { result ≡ is_header (fields_of fields.now) }
{
    is_word(fields.get(0), b"activity") && is_word(fields.get(1), b"start")
}

// Whether a field is there and is this word.
fn is_word(field: Option<&[u8]>, word: &[u8]) -> bool
    ensures { result ≡ is_word (option_map (λ bytes. bytes.now) field.entry) word.now }
{
    match field {
        Some(bytes) => bytes == word,
        None => false,
    }
}

/// The placement of the record with this number: an activity and its start.
#[tactic(auto, unfolding(crate::specs::Reading::booking_in))]
pub(crate) fn placement_in(fields: &ByteRecord, row: u32) -> Result<Placement, PlanFault>
    ensures { MatchResult result
        (λ placement. booking_in row (fields_of fields.now) ≡ Ok (booking_of placement))
        (λ fault. booking_in row (fields_of fields.now) ≡ Err fault) }
{
    let activity = number_due(fields.get(0), row)?;
    let start = number_due(fields.get(1), row)?;
    Ok(Placement { activity, start })
}

// The number that a field is, in the record with this number.
fn number_due(field: Option<&[u8]>, row: u32) -> Result<u32, PlanFault>
    ensures { result ≡ number_due row (option_map (λ bytes. bytes.now) field.entry) }
{
    let Some(bytes) = field else {
        return Err(PlanFault {
            kind: PlanKind::TooFewFields,
            row,
        });
    };
    match read_number(bytes) {
        Ok(number) => Ok(number),
        Err(NumberFault::NotANumber) => Err(PlanFault {
            kind: PlanKind::NotANumber,
            row,
        }),
        Err(NumberFault::NumberTooLarge) => Err(PlanFault {
            kind: PlanKind::NumberTooLarge,
            row,
        }),
    }
}
