ghost use Rattle.std.specs.Prelude.{◌≡◌};
ghost use Rattle.rcpsp_run.specs.Answer.{answer_view, told, told_live, ending_after};

use crate::status::Status;

/// The text of the output, whether it tells a violation, and the lines that told on the note how far its
/// schedule was booked.
#[derive(Debug, Drop)]
pub(crate) struct Answer {
    pub(crate) text: Vec<u8>,
    pub(crate) violated: bool,
    pub(crate) live: Option<LiveLines>,
}

/// So many lines tell how far a run has come, and one more that all positions are booked.
#[derive(Clone, Copy, Debug)]
pub(crate) struct LiveLines {
    pub(crate) times: u32,
    pub(crate) positions: u32,
}

impl Answer {
    /// A text that tells no violation.
    pub(crate) fn told(text: Vec<u8>) -> Answer
        ensures { answer_view result ≡ told text.items }
    {
        Answer::told_live(None, text)
    }

    /// The same, after these lines.
    pub(crate) fn told_live(live: Option<LiveLines>, text: Vec<u8>) -> Answer
        ensures { answer_view result ≡ told_live live text.items }
    {
        Answer {
            text,
            violated: false,
            live,
        }
    }

    /// How a run ends whose output is written; `failed` says whether a put on the note failed before.
    pub(crate) fn status(&self, failed: bool) -> Status
        ensures { result ≡ ending_after failed (answer_view self.now) }
    {
        if failed {
            Status::WriteFault
        } else if self.violated {
            Status::Violated
        } else {
            Status::Done
        }
    }
}
