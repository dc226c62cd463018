use std::error::Error;
use std::fmt;

/// A demand that no period can meet: an activity of positive duration demands more of a resource than its last capacity.
#[derive(Clone, Copy, Debug, PartialEq, Eq)]
pub struct Misfit {
    /// The activity, numbered from 1.
    pub activity: u32,

    /// The resource, numbered from 1.
    pub resource: u32,

    /// What the activity demands of it in each of its periods.
    pub demand: u32,

    /// The capacity of the resource after all changes.
    pub capacity: u32,
}

impl fmt::Display for Misfit {
    ghost use Rattle.std.specs.Prelude.{Some};
    ghost use Rattle.rc_instance.specs.FaultWords.{misfit_words};

    ghost output = { λ misfit. Some (misfit_words misfit) };

    fn fmt<W: fmt::Write>(&self, f: &mut fmt::Formatter<W>) -> fmt::Result {
        let Misfit {
            activity,
            resource,
            demand,
            capacity,
        } = *self;
        write!(
            f,
            "activity {activity} needs {demand} of resource {resource}, capacity {capacity}"
        )
    }
}

impl Error for Misfit {}
