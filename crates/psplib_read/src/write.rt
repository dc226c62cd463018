ghost use Rattle.std.specs.Prelude.{◌≡◌, ◌++◌, [], Ok, IfOk, OnOk};
ghost use Rattle.std.specs.List.{flat_map};
ghost use Rattle.std.specs.Fmt.{decimal};
ghost use Rattle.std.specs.String.{string_bytes};
ghost use Rattle.rc_instance.specs.Project.{IsActivity};
ghost use Rattle.rc_edge.specs.Written.{demands_of, HasSmallDemands, HasSmallDemandsAt};
ghost use Rattle.psplib_read.specs.Sm.{read_instance};
ghost use Rattle.psplib_read.specs.Written.{ended, column, resource_names, preamble, relation, relations, request, requests, availabilities, sm_text};

use rc_instance::{Instance, Memory};
use std::alloc::Global;

/// A line between two parts of a text.
const RULER: &str = "************************************************************************";

/// How many modes each job has, and the number of its mode.
const MODE: u32 = 1;

/// How many bytes the line of a job has, about.
const ROW: usize = 40;

/// The instance as a text in the `.sm` format of PSPLIB, in the columns of the usual generator.
///
/// The text has nothing of a calendar; without it, it is read back as the same instance. The only
/// error is want of memory.
pub fn write_sm(alloc: Global, instance: &Instance) -> Result<Vec<u8>, Memory>
    ensures text { IfOk result (λ text. text.items ≡ sm_text instance.now) }
    ensures read_back { IfOk result (λ text.
        read_instance text.items ≡ Ok (record instance.now { changes = [] })) }
{
    let mut text = String::with_capacity(alloc, ROW * (2 * instance.count() as usize + 20))?;
    push_preamble(&mut text, instance)?;
    push_relations(&mut text, instance)?;
    push_requests(&mut text, instance)?;
    push_availabilities(&mut text, instance)?;
    Ok(text.into_bytes())
}

/// Appends a line.
fn push_line(text: &mut String, line: &str) -> Result<(), Memory>
    ensures { OnOk result (string_bytes text.new ≡ string_bytes text.old ++ ended line.now) }
{
    text.push_str(line)?;
    text.push('\n')?;
    Ok(())
}

/// Appends a line of a number between two texts.
fn push_value(text: &mut String, before: &str, value: u32, after: &str) -> Result<(), Memory>
    ensures { OnOk result (string_bytes text.new
        ≡ string_bytes text.old ++ ended (before.now ++ decimal value ++ after.now)) }
{
    write!(text, "{before}{value}{after}\n")?;
    Ok(())
}

/// Appends the lines before the sections.
fn push_preamble(text: &mut String, instance: &Instance) -> Result<(), Memory>
    ensures { OnOk result (string_bytes text.new
        ≡ string_bytes text.old ++ flat_map ended (preamble instance.now)) }
{
    let work = instance.horizon() - instance.last_change();
    push_line(text, RULER)?;
    push_line(text, "projects                      :  1")?;
    push_value(
        text,
        "jobs (incl. supersource/sink ):  ",
        instance.count(),
        "",
    )?;
    push_value(text, "horizon                       :  ", work, "")?;
    push_line(text, "RESOURCES")?;
    push_value(
        text,
        "  - renewable                 :  ",
        instance.resources(),
        "   R",
    )?;
    push_line(text, "  - nonrenewable              :  0   N")?;
    push_line(text, "  - doubly constrained        :  0   D")?;
    Ok(())
}

/// Appends the successors of each job.
fn push_relations(text: &mut String, instance: &Instance) -> Result<(), Memory>
    ensures { OnOk result (string_bytes text.new
        ≡ string_bytes text.old ++ flat_map ended (relations instance.now)) }
{
    push_line(text, RULER)?;
    push_line(text, "PRECEDENCE RELATIONS:")?;
    push_line(text, "jobnr.    #modes  #successors   successors")?;
    for job in 1..instance.count() + 1 {
        push_relation(text, instance, job)?;
    }
    Ok(())
}

/// Appends the line of a job and its successors.
fn push_relation(text: &mut String, instance: &Instance, job: u32) -> Result<(), Memory>
    requires { IsActivity instance.now job }
    ensures { OnOk result (string_bytes text.new
        ≡ string_bytes text.old ++ ended (relation instance.now job)) }
{
    let count = instance.successor_count(job);
    write!(text, "{job:>4} {MODE:>8} {count:>10}")?;
    push_columns(text, instance.successors(job))?;
    text.push('\n')?;
    Ok(())
}

/// Appends numbers, each after a space and right in 4 places.
fn push_columns(text: &mut String, numbers: &[u32]) -> Result<(), Memory>
    ensures { OnOk result (string_bytes text.new
        ≡ string_bytes text.old ++ flat_map (column 4) numbers.now) }
{
    for number in numbers {
        write!(text, " {number:>4}")?;
    }
    Ok(())
}

/// Appends the duration and the demands of each job.
fn push_requests(text: &mut String, instance: &Instance) -> Result<(), Memory>
    ensures value { OnOk result (string_bytes text.new
        ≡ string_bytes text.old ++ flat_map ended (requests instance.now)) }
    ensures small { OnOk result (HasSmallDemands instance.now) }
{
    push_line(text, RULER)?;
    push_line(text, "REQUESTS/DURATIONS:")?;
    text.push_str("jobnr. mode duration")?;
    push_names(text, instance)?;
    for job in 1..instance.count() + 1 {
        push_request(text, instance, job)?;
    }
    Ok(())
}

/// Appends the line of a job, its duration and its demands.
fn push_request(text: &mut String, instance: &Instance, job: u32) -> Result<(), Memory>
    requires { IsActivity instance.now job }
    ensures value { OnOk result (string_bytes text.new
        ≡ string_bytes text.old ++ ended (request instance.now job)) }
    ensures small { OnOk result (HasSmallDemandsAt instance.now job) }
{
    let duration = instance.duration(job);
    write!(text, "{job:>4} {MODE:>5} {duration:>8}")?;
    push_demands(text, instance, job)?;
    text.push('\n')?;
    Ok(())
}

/// Appends the demands of a job, each after a space and right in 7 places.
fn push_demands(text: &mut String, instance: &Instance, job: u32) -> Result<(), Memory>
    requires { IsActivity instance.now job }
    ensures value { OnOk result (string_bytes text.new
        ≡ string_bytes text.old ++ flat_map (column 7) (demands_of instance.now job)) }
    ensures small { OnOk result (HasSmallDemandsAt instance.now job) }
{
    for resource in 1..instance.resources() + 1 {
        write!(text, " {:>7}", instance.demand(job, resource))?;
    }
    Ok(())
}

/// Appends the line of the names of the resources, after what stands in it.
fn push_names(text: &mut String, instance: &Instance) -> Result<(), Memory>
    ensures { OnOk result (string_bytes text.new
        ≡ string_bytes text.old ++ ended (resource_names instance.now)) }
{
    for resource in 1..instance.resources() + 1 {
        write!(text, "  R {resource}")?;
    }
    text.push('\n')?;
    Ok(())
}

/// Appends the capacities.
fn push_availabilities(text: &mut String, instance: &Instance) -> Result<(), Memory>
    ensures { OnOk result (string_bytes text.new
        ≡ string_bytes text.old ++ flat_map ended (availabilities instance.now)) }
{
    push_line(text, RULER)?;
    push_line(text, "RESOURCEAVAILABILITIES:")?;
    push_names(text, instance)?;
    push_capacities(text, instance)?;
    push_line(text, RULER)?;
    Ok(())
}

/// Appends the line of the capacities, each after a space and right in 7 places.
fn push_capacities(text: &mut String, instance: &Instance) -> Result<(), Memory>
    ensures { OnOk result (string_bytes text.new
        ≡ string_bytes text.old ++ ended (flat_map (column 7) instance.now.capacities)) }
{
    for resource in 1..instance.resources() + 1 {
        write!(text, " {:>7}", instance.capacity(resource))?;
    }
    text.push('\n')?;
    Ok(())
}
