ghost use Rattle.rcpsp_words.specs.Reading.{IsUnderstood};
ghost use Rattle.rcpsp_words.specs.Values.Shown.{shown_of};

use crate::values::form::Form;
use crate::values::live::Live;
use crate::words::WordsFault;

/// What is shown of samples.
#[derive(Debug, Drop)]
pub enum Shown {
    /// The schedule of the best one, improved or not, in a form; and how often the run tells meanwhile
    /// how many of its activities are booked, where that is asked for.
    Best {
        live: Option<Live>,
        improve: bool,
        form: Form,
    },

    /// The makespan of each.
    All,
}

/// What is shown of samples: the makespan of each, of which no booking is told, and which is neither
/// improved nor in a form; or the best one, in a form, or else in a table.
pub(crate) fn shown_of(
    all: bool,
    live: Option<Live>,
    improve: bool,
    form: Option<Form>,
) -> Result<Shown, WordsFault>
    ensures { IsUnderstood (shown_of all live improve form) result }
{
    match (all, live, improve, form) {
        (true, None, false, None) => Ok(Shown::All),
        (true, _, _, _) => Err(WordsFault::Undefined),
        (false, live, improve, form) => Ok(Shown::Best {
            live,
            improve,
            form: form.unwrap_or(Form::Table),
        }),
    }
}
