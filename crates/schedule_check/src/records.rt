ghost use Rattle.std.specs.Prelude.{◌≡◌, ◌+◌, ◌≤◌, length, IfErr, IfOk, OnOk};
ghost use Rattle.csv.specs.Reading.{records, default_config, strip_bom};
ghost use Rattle.csv.specs.Records.{fields_of};
ghost use Rattle.schedule_check.specs.Reading.{out_of_memory};
ghost use Rattle.schedule_check.specs.Records.{IsReading, Takes, records_left};

use crate::plan_fault::PlanFault;
use csv::{ByteRecord, ErrorKind, Reader, ReaderBuilder};
use rc_instance::Memory;
use std::alloc::Global;

/// A reader of the records of a text, whatever their lengths.
pub(crate) fn reader_of(alloc: Global, bytes: &[u8]) -> Reader<&[u8]>
    ensures reading { IsReading result }
    ensures left { records_left result ≡ records default_config (strip_bom bytes.now) }
    ensures count { length (records_left result) ≤ length bytes.now + 1 }
{
    ReaderBuilder::new()
        .has_headers(false)
        .flexible(true)
        .from_reader(alloc, bytes)
}

/// Reads the fields of the next record, if there is one.
///
/// A reader over bytes does not fail, and takes records of any length, so its only error is want of
/// memory.
pub(crate) fn read_next(
    reader: &mut Reader<&[u8]>,
    fields: &mut ByteRecord,
) -> Result<bool, PlanFault>
    requires { IsReading reader.old }
    ensures taken { IfOk result (Takes (records_left reader.old) (fields_of fields.new)
        (records_left reader.new)) }
    ensures reading { OnOk result (IsReading reader.new) }
    ensures memory { IfErr result (λ fault. fault ≡ out_of_memory) }
{
    match reader.read_byte_record(fields) {
        Ok(found) => Ok(found),
        Err(error) => match error.into_kind() {
            ErrorKind::Io(_) | ErrorKind::OutOfMemory => Err(Memory.into()),
            _ => unreachable!(),
        },
    }
}
