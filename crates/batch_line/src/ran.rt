use rcpsp_run::Status;

// What the run of one file came to: how it ended, its text, and the line of its refusal.
#[derive(Debug, Drop)]
pub(crate) struct Ran {
    pub(crate) status: Status,
    pub(crate) text: Vec<u8>,
    pub(crate) line: Vec<u8>,
}
