ghost use Rattle.std.specs.Prelude.{◌≡◌};
ghost use Rattle.rc_edge.specs.Grammar.{Gives};
ghost use Rattle.psplib_read.specs.Preamble.{value_of, topic_of, was_read, with_value, with_topic, with_line, head_of, head_due};

use crate::cursor::Cursor;
use crate::line::Line;
use crate::token::token_number;
use rc_edge::{Item, Number, TextFault, TextKind, refuse_if};

/// How many jobs and renewable resources there are.
#[derive(Clone, Copy, Debug, PartialEq, Eq)]
pub struct Head {
    pub jobs: u32,
    pub resources: u32,
}

/// What a line of the preamble that is read is about.
#[derive(Clone, Copy, Debug, PartialEq, Eq)]
pub enum Topic {
    /// How many projects there are.
    Projects,

    /// How many jobs there are, those of source and sink counted.
    Jobs,

    /// How many renewable resources there are.
    Renewable,

    /// How many nonrenewable resources there are.
    Nonrenewable,

    /// How many doubly constrained resources there are.
    DoublyConstrained,
}

/// What the lines of the preamble told so far.
#[derive(Clone, Copy, Debug, PartialEq, Eq)]
pub struct Preamble {
    /// A line gave the number of projects, which is 1.
    pub projects: bool,

    /// The number of jobs.
    pub jobs: Option<u32>,

    /// The number of renewable resources.
    pub renewable: Option<u32>,

    /// A line gave the number of nonrenewable resources, which is 0.
    pub nonrenewable: bool,

    /// A line gave the number of doubly constrained resources, which is 0.
    pub doubly_constrained: bool,
}

impl Preamble {
    /// Whether a line of this topic was read.
    #[tactic(auto, unfolding(crate::specs::Preamble::was_read))]
    fn was_read(&self, topic: Topic) -> bool
        ensures { result ≡ was_read topic self.now }
    {
        match topic {
            Topic::Projects => self.projects,
            Topic::Jobs => self.jobs.is_some(),
            Topic::Renewable => self.renewable.is_some(),
            Topic::Nonrenewable => self.nonrenewable,
            Topic::DoublyConstrained => self.doubly_constrained,
        }
    }

    /// The same with the value of a topic, which is tested.
    #[tactic(auto, unfolding(crate::specs::Preamble::with_value))]
    fn with_value(self, topic: Topic, number: Number) -> Result<Preamble, TextFault>
        ensures { result ≡ with_value topic number self }
    {
        let Number { value, at } = number;
        let mut preamble = self;
        match topic {
            Topic::Projects => {
                refuse_if(value != 1, TextKind::ManyProjects, at)?;
                preamble.projects = true;
            }
            Topic::Jobs => preamble.jobs = Some(rc_edge::activity_count(number)?),
            Topic::Renewable => preamble.renewable = Some(rc_edge::resource_count(number)?),
            Topic::Nonrenewable => {
                refuse_if(value != 0, TextKind::NotRenewable, at)?;
                preamble.nonrenewable = true;
            }
            Topic::DoublyConstrained => {
                refuse_if(value != 0, TextKind::NotRenewable, at)?;
                preamble.doubly_constrained = true;
            }
        }
        Ok(preamble)
    }

    /// The same with a line of a topic, of which the first alone is read.
    #[tactic(auto, unfolding(crate::specs::Preamble::with_topic))]
    fn with_topic(self, topic: Topic, line: &Line) -> Result<Preamble, TextFault>
        ensures { result ≡ with_topic topic line.now self }
    {
        if self.was_read(topic) {
            return Ok(self);
        }
        let number = value_of(line)?;
        self.with_value(topic, number)
    }

    /// The same with one line more.
    #[tactic(auto, unfolding(crate::specs::Preamble::with_line))]
    fn with_line(self, line: &Line) -> Result<Preamble, TextFault>
        ensures { result ≡ with_line line.now self }
    {
        match topic_of(line) {
            Some(topic) => self.with_topic(topic, line),
            None => Ok(self),
        }
    }

    /// How many jobs and resources there are, where the preamble ends at this offset.
    fn head(&self, at: u32) -> Result<Head, TextFault>
        ensures { result ≡ head_of self.now.jobs self.now.renewable at }
    {
        let expected = |item| TextFault {
            kind: TextKind::Expected(item),
            at,
        };
        let jobs = self.jobs.ok_or(expected(Item::Jobs))?;
        let resources = self.renewable.ok_or(expected(Item::Renewable))?;
        Ok(Head { jobs, resources })
    }
}

/// What a line of the preamble is about, if it is read.
#[tactic(auto, unfolding(crate::specs::Preamble::topic_of))]
fn topic_of(line: &Line) -> Option<Topic>
    ensures { result ≡ topic_of line.now }
{
    if !line.has_colon() {
        return None;
    }
    if line.says(b"projects") {
        Some(Topic::Projects)
    } else if line.says(b"jobs") {
        Some(Topic::Jobs)
    } else if line.says(b"-renewable") {
        Some(Topic::Renewable)
    } else if line.says(b"-nonrenewable") {
        Some(Topic::Nonrenewable)
    } else if line.says(b"-doublyconstrained") {
        Some(Topic::DoublyConstrained)
    } else {
        None
    }
}

/// The value of a line, which is the first token after its first colon.
#[tactic(auto, unfolding(crate::specs::Preamble::value_of))]
fn value_of(line: &Line) -> Result<Number, TextFault>
    ensures { result ≡ value_of line.now }
{
    match line.first_value() {
        Some(token) => token_number(&token),
        None => Err(TextFault {
            kind: TextKind::NotANumber,
            at: line.end(),
        }),
    }
}

/// How many jobs and resources the preamble tells; the cursor goes on after the line that ends it.
pub fn read_head(cursor: &mut Cursor) -> Result<Head, TextFault>
    ensures { Gives (λ head. (head, cursor.new)) result (head_due cursor.old) }
{
    let size = cursor.size();
    let mut preamble = Preamble {
        projects: false,
        jobs: None,
        renewable: None,
        nonrenewable: false,
        doubly_constrained: false,
    };
    while let Some(line) = cursor.next_line() {
        if line.says(b"precedencerelations") {
            cursor.skip_line();
            return preamble.head(line.first_at());
        }
        preamble = preamble.with_line(&line)?;
    }
    Err(TextFault {
        kind: TextKind::Ended,
        at: size,
    })
}
