ghost use Rattle.std.specs.Prelude.{◌≡◌, ◌⊎◌, ◌+◌, ◌≤◌, [], length, Err, IfErr, OnOk};
ghost use Rattle.rc_instance.specs.declared.limits.TheConstants.{MAX_FILE_BYTES};
ghost use Rattle.rc_instance.specs.Results.{GivesOr};
ghost use Rattle.schedule_check.specs.Reading.{bookings_read, out_of_memory, plan_of, read_plan_of};
ghost use Rattle.schedule_check.specs.Records.{IsReading, records_left};

use crate::fields::{is_header, placement_in};
use crate::plan::Plan;
use crate::plan_fault::{PlanFault, PlanKind};
use crate::records::{read_next, reader_of};
use csv::{ByteRecord, Reader};
use std::alloc::Global;

/// The plan that a text of CSV is: a header, and for each placement a record of an activity and
/// its start.
///
/// Records are as `csv` reads them, of any length, and are counted from 1. `NotHeader` comes at
/// record 1, where it does not begin with the fields `activity` and `start`, or there is none. In
/// each later record the first two fields are numbers, and further fields are passed over; the
/// first that is not one is the fault, in order of the records and then of their fields. `Memory`
/// may come at any place, and its row is 0.
pub fn read_plan(alloc: Global, bytes: &[u8]) -> Result<Plan, PlanFault>
    requires { length bytes.now ≤ MAX_FILE_BYTES }
    ensures { GivesOr out_of_memory (λ plan. plan) result (read_plan_of bytes.now) }
{
    let mut reader = reader_of(alloc, bytes);
    let mut fields = ByteRecord::new(alloc);
    read_header(&mut reader, &mut fields)?;
    let plan = read_placements(alloc, &mut reader, &mut fields)?;
    Ok(plan)
}

// Reads the first record, which is to be the header.
fn read_header(reader: &mut Reader<&[u8]>, fields: &mut ByteRecord) -> Result<(), PlanFault>
    requires { IsReading reader.old }
    ensures header { OnOk result (plan_of (records_left reader.old)
        ≡ bookings_read 2 [] (records_left reader.new)) }
    ensures reading { OnOk result (IsReading reader.new) }
    ensures count { OnOk result (length (records_left reader.new)
        ≤ length (records_left reader.old)) }
    ensures refused { IfErr result (λ fault.
        (plan_of (records_left reader.old) ≡ Err fault) ⊎ (fault ≡ out_of_memory)) }
{
    if read_next(reader, fields)? && is_header(fields) {
        Ok(())
    } else {
        Err(PlanFault {
            kind: PlanKind::NotHeader,
            row: 1,
        })
    }
}

// Reads the placements of the records that follow the header.
fn read_placements(
    alloc: Global,
    reader: &mut Reader<&[u8]>,
    fields: &mut ByteRecord,
) -> Result<Plan, PlanFault>
    requires reading { IsReading reader.old }
    requires count { length (records_left reader.old) ≤ MAX_FILE_BYTES + 1 }
    ensures { GivesOr out_of_memory (λ plan. plan) result
        (bookings_read 2 [] (records_left reader.old)) }
{
    let mut plan = Plan::new(alloc);
    let mut row = 2;
    while read_next(reader, fields)? {
        plan.push(placement_in(fields, row)?)?;
        row += 1;
    }
    Ok(plan)
}
