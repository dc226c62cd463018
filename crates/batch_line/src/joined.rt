//! What many files come to, in one text.
ghost use Rattle.std.specs.Prelude.{◌≡◌, ◌++◌, length, IfOk, OnOk};
ghost use Rattle.batch_line.specs.Batch.{or_else, head_line};
ghost use Rattle.batch_line.specs.Runs.{ran_status, ran_part, ran_text};

use crate::ran::Ran;
use rc_instance::Memory;
use rcpsp_run::Status;
use rcpsp_words::Name;
use std::alloc::Global;

// The status and the text of many files.
#[derive(Debug, Drop)]
pub(crate) struct Joined {
    pub(crate) status: Status,
    pub(crate) text: Vec<u8>,
}

// What the runs come to together, in order of the names.
pub(crate) fn joined_of(alloc: Global, names: &[Name], rans: &[Ran]) -> Result<Joined, Memory>
    requires { length rans.now ≡ length names.now }
    ensures status { IfOk result (λ joined. joined.status ≡ ran_status rans.now) }
    ensures text { IfOk result (λ joined. joined.text.items ≡ ran_text names.now rans.now) }
{
    let mut status = Status::Done;
    let mut text = Vec::new(alloc);
    for place in 0..names.len() {
        status = or_else(status, rans[place].status);
        push_part(&mut text, &names[place], &rans[place])?;
    }
    Ok(Joined { status, text })
}

// A status, unless it is `Done`, and else another.
fn or_else(status: Status, later: Status) -> Status
    ensures { result ≡ or_else status later }
{
    match status {
        Status::Done => later,
        other => other,
    }
}

// Adds what is printed of one file: the line of its name, and its text or its line.
#[tactic(auto, using(std::proofs::Common::append_assoc))]
fn push_part(text: &mut Vec<u8>, name: &Name, ran: &Ran) -> Result<(), Memory>
    ensures { OnOk result (text.new.items ≡ text.old.items ++ ran_part name.now ran.now) }
{
    text.extend_from_slice(b"== ")?;
    text.extend_from_slice(name.text().as_bytes())?;
    text.extend_from_slice(b"\n")?;
    text.extend_from_slice(&ran.text)?;
    text.extend_from_slice(&ran.line)?;
    Ok(())
}
