ghost use Rattle.std.specs.Prelude.{◌≡◌, ◌≤◌, codes, length, map, IfOk, OnOk};
ghost use Rattle.csv.specs.Writing.{default_writer, row_text};
ghost use Rattle.rc_instance.specs.Project.{activity_count};
ghost use Rattle.rc_instance.specs.Schedule.{makespan};
ghost use Rattle.rc_instance.specs.declared.limits.TheConstants.{MAX_HORIZON};
ghost use Rattle.gantt_table.specs.Csv.{csv_record, csv_text};
ghost use Rattle.gantt_table.specs.Writing.{HasWritten, Writes};

use crate::finish::finish_of;
use csv::Writer;
use itoa::Buffer;
use rc_instance::{Instance, Memory, Schedule};
use std::alloc::Global;

/// Writes a record. The only error is want of memory.
fn write_record(writer: &mut Writer<Vec<u8>>, fields: &[&[u8]]) -> Result<(), Memory>
    ensures { OnOk result (Writes (row_text default_writer (map (λ field. field.now) fields.now))
        writer.old writer.new) }
{
    let Ok(()) = writer.write_fields(fields) else {
        return Err(Memory);
    };
    Ok(())
}

/// A writer that has written the header.
fn started(alloc: Global) -> Result<Writer<Vec<u8>>, Memory>
    ensures { IfOk result (HasWritten (codes "activity,start,finish\n")) }
{
    let mut writer = Writer::from_writer(Vec::new(alloc));
    write_record(&mut writer, &[b"activity", b"start", b"finish"])?;
    Ok(writer)
}

/// Writes a record of three numbers.
fn write_numbers(
    writer: &mut Writer<Vec<u8>>,
    first: u32,
    second: u32,
    third: u32,
) -> Result<(), Memory>
    ensures { OnOk result (Writes (csv_record first second third) writer.old writer.new) }
{
    // Each text borrows the buffer that it stands in.
    let mut buffers = (Buffer::new(), Buffer::new(), Buffer::new());
    let fields = [
        buffers.0.format(first).as_bytes(),
        buffers.1.format(second).as_bytes(),
        buffers.2.format(third).as_bytes(),
    ];
    write_record(writer, &fields)?;
    Ok(())
}

/// The CSV of a schedule: a header, and for each activity a record of its number, start and finish.
///
/// Starts and finishes are in periods. The only error is want of memory.
pub fn csv_table(alloc: Global, instance: &Instance, schedule: &Schedule) -> Result<Vec<u8>, Memory>
    requires count { length schedule.now ≡ activity_count instance.now }
    requires ends { makespan instance.now schedule.now ≤ MAX_HORIZON }
    ensures { IfOk result (λ text. text.items ≡ csv_text instance.now schedule.now) }
{
    let mut writer = started(alloc)?;
    for activity in 1..instance.count() + 1 {
        let start = schedule.start(activity);
        let finish = finish_of(instance, schedule, activity);
        write_numbers(&mut writer, activity, start, finish)?;
    }
    match writer.into_inner() {
        Ok(text) => Ok(text),
        Err(_) => Err(Memory),
    }
}
