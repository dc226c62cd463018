use crate::commands::{
    CheckCommand, Command, ConvertCommand, ParallelCommand, SampleCommand, ScheduleCommand,
    TrialCommand, WindowsCommand,
};
use crate::gathered::gather;
use crate::many::read_many;
use crate::values::form::Form;
use crate::values::format::Format;
use crate::values::name::Name;
use crate::values::number::number_in;
use crate::values::order::Order;
use crate::words::{Options, WordsFault, read_words};
use std::alloc::{AllocError, Global};
use std::test::Fail;

// Words, separated by single spaces, and what they say.
static LINES: [(&str, &str); 99] = [
    ("plan e1.rcp", "undefined"),
    ("schedule", "undefined"),
    ("Schedule e1.rcp", "undefined"),
    ("schedule e1.rcp", "e1.rcp in Rcp by Number as Table"),
    ("schedule E1.RCP", "E1.RCP in Rcp by Number as Table"),
    ("schedule .rcp", ".rcp in Rcp by Number as Table"),
    ("schedule rcp", "undefined"),
    ("schedule e1.txt", "undefined"),
    (
        "schedule e1.txt --format rcp",
        "e1.txt in Rcp by Number as Table",
    ),
    ("schedule e1.rcp --format RCP", "undefined"),
    ("schedule e1.rcp --format=", "undefined"),
    (
        "schedule --rule=lft e3.rcp",
        "e3.rcp in Rcp by Lft as Table",
    ),
    (
        "schedule --rule lft e3.rcp",
        "e3.rcp in Rcp by Lft as Table",
    ),
    (
        "schedule e3.rcp --rule lft",
        "e3.rcp in Rcp by Lft as Table",
    ),
    (
        "schedule e3.rcp --rule number",
        "e3.rcp in Rcp by Number as Table",
    ),
    (
        "schedule e3.rcp --rule lst",
        "e3.rcp in Rcp by Lst as Table",
    ),
    (
        "schedule e3.rcp --rule mts",
        "e3.rcp in Rcp by Mts as Table",
    ),
    (
        "schedule e3.rcp --rule grpw",
        "e3.rcp in Rcp by Grpw as Table",
    ),
    ("schedule e3.rcp --rule", "undefined"),
    ("schedule e3.rcp --rule=", "undefined"),
    ("schedule e3.rcp --rule slow", "undefined"),
    ("schedule e3.rcp --rule lft --rule lft", "undefined"),
    ("schedule e3.rcp --rule=lft --rule lst", "undefined"),
    (
        "schedule e3.rcp --list l.txt",
        "e3.rcp in Rcp by the list l.txt as Table",
    ),
    (
        "schedule e3.rcp --list=a=b",
        "e3.rcp in Rcp by the list a=b as Table",
    ),
    (
        "schedule e3.rcp --list=-x",
        "e3.rcp in Rcp by the list -x as Table",
    ),
    ("schedule e3.rcp --list -x", "undefined"),
    ("schedule e3.rcp --list --rule", "undefined"),
    (
        "schedule e3.rcp --list -",
        "e3.rcp in Rcp by the list - as Table",
    ),
    ("schedule e3.rcp --list=", "undefined"),
    ("schedule e3.rcp --rule lft --list l.txt", "undefined"),
    ("schedule - --format rcp", "- in Rcp by Number as Table"),
    ("schedule --format rcp - --list -", "undefined"),
    ("schedule -", "undefined"),
    ("schedule e1.rcp e2.rcp", "undefined"),
    ("schedule e1.rcp -x", "undefined"),
    ("schedule e1.rcp --", "undefined"),
    ("schedule e1.rcp --=", "undefined"),
    ("schedule e1.rcp --help", "undefined"),
    ("schedule e1.rcp --workers 0", "undefined"),
    ("schedule e1.rcp --workers 65", "undefined"),
    (
        "schedule --workers=64 e1.rcp --live 1000",
        "e1.rcp in Rcp by Number as Table with 64 told 1000",
    ),
    ("schedule e1.rcp --live 0", "undefined"),
    ("schedule e1.rcp --live 1001", "undefined"),
    (
        "schedule e1.rcp --improve",
        "e1.rcp in Rcp by Number as Table improved",
    ),
    ("schedule e1.rcp --improve --improve", "undefined"),
    ("schedule e1.rcp --improve=yes", "undefined"),
    ("schedule e1.rcp --improve=", "undefined"),
    ("schedule e1.rcp --improve yes", "undefined"),
    (
        "schedule --improve e1.rcp --calendar c.txt --list=l.txt",
        "e1.rcp in Rcp by the list l.txt as Table on c.txt improved",
    ),
    (
        "schedule e1.rcp --descend 9",
        "e1.rcp in Rcp by Number as Table descended 9",
    ),
    (
        "schedule --descend=1000 e1.rcp --improve",
        "e1.rcp in Rcp by Number as Table descended 1000 improved",
    ),
    ("schedule e1.rcp --descend 0", "undefined"),
    ("schedule e1.rcp --descend 1001", "undefined"),
    ("schedule e1.rcp --descend", "undefined"),
    ("schedule e1.rcp --descend 1 --descend 2", "undefined"),
    (
        "schedule e1.rcp --calendar -",
        "e1.rcp in Rcp by Number as Table on -",
    ),
    ("schedule e1.rcp --calendar=", "undefined"),
    ("schedule e1.rcp --calendar", "undefined"),
    ("schedule e1.rcp --calendar a --calendar b", "undefined"),
    ("schedule - --format rcp --calendar -", "undefined"),
    ("schedule e1.rcp --list - --calendar -", "undefined"),
    ("check e1.rcp p.csv --calendar c.txt", "undefined"),
    ("windows e1.rcp --improve", "undefined"),
    ("schedule e1.sm", "e1.sm in Sm by Number as Table"),
    ("schedule .SM", ".SM in Sm by Number as Table"),
    (
        "schedule e1.sm --format rcp",
        "e1.sm in Rcp by Number as Table",
    ),
    (
        "schedule e1.rcp --format=sm",
        "e1.rcp in Sm by Number as Table",
    ),
    (
        "schedule e1.rcp --as chart",
        "e1.rcp in Rcp by Number as Chart",
    ),
    ("schedule --as=csv e1.rcp", "e1.rcp in Rcp by Number as Csv"),
    (
        "schedule e1.rcp --as table",
        "e1.rcp in Rcp by Number as Table",
    ),
    ("schedule e1.rcp --as", "undefined"),
    ("schedule e1.rcp --as CSV", "undefined"),
    ("schedule e1.rcp --to sm", "undefined"),
    (
        "parallel e1.rcp --list=l.txt --calendar c.txt --as csv",
        "e1.rcp in Rcp by the list l.txt as Csv on c.txt",
    ),
    ("parallel e1.sm --rule lft", "e1.sm in Sm by Lft as Table"),
    ("parallel e1.rcp --improve", "undefined"),
    ("parallel e1.rcp --rule lft --list l.txt", "undefined"),
    ("check e1.rcp p.csv", "e1.rcp in Rcp with the plan p.csv"),
    (
        "check e1.sm --format rcp p.csv",
        "e1.sm in Rcp with the plan p.csv",
    ),
    ("check e1.rcp -", "e1.rcp in Rcp with the plan -"),
    ("check - - --format rcp", "undefined"),
    ("check e1.rcp", "undefined"),
    ("check e1.rcp p.csv q.csv", "undefined"),
    ("check e1.rcp p.csv --as csv", "undefined"),
    ("convert e1.rcp --to sm", "e1.rcp in Rcp to Sm"),
    ("convert --to=rcp e1.rcp", "e1.rcp in Rcp to Rcp"),
    ("convert e1.rcp", "undefined"),
    ("convert e1.rcp --to", "undefined"),
    ("convert e1.rcp --to csv", "undefined"),
    ("convert e1.rcp --to sm --to sm", "undefined"),
    ("convert e1.txt --to sm", "undefined"),
    ("windows e1.rcp", "windows of e1.rcp in Rcp"),
    ("windows - --format sm", "windows of - in Sm"),
    ("windows e1.rcp --rule lft", "undefined"),
    ("windows", "undefined"),
    ("--help", "undefined"),
    ("--version", "undefined"),
    ("", "undefined"),
];

// Words of `sample` and `trial`.
static MADE: [(&str, &str); 29] = [
    (
        "sample e1.rcp",
        "e1.rcp in Rcp by 1 from 0 so many 100 with 4 shows Best { live: None, improve: false, form: Table }",
    ),
    (
        "sample e1.sm --as=csv --improve --seed 18446744073709551615 --count 0001000000",
        "e1.sm in Sm by 18446744073709551615 from 0 so many 1000000 with 4 shows Best { live: None, improve: true, form: Csv }",
    ),
    (
        "sample --all e1.rcp --from 4294967295 --count 1 --workers 64",
        "e1.rcp in Rcp by 1 from 4294967295 so many 1 with 64 shows All",
    ),
    ("sample e1.rcp --from 4294967295 --count 2", "undefined"),
    ("sample e1.rcp --from 4294967295", "undefined"),
    ("sample e1.rcp --from 4294967296 --count 1", "undefined"),
    ("sample e1.rcp --count 0", "undefined"),
    ("sample e1.rcp --count 1000001", "undefined"),
    ("sample e1.rcp --seed 18446744073709551616", "undefined"),
    ("sample e1.rcp --workers 65", "undefined"),
    ("sample e1.rcp --all --all", "undefined"),
    ("sample e1.rcp --all --as table", "undefined"),
    ("sample e1.rcp --all --improve", "undefined"),
    ("sample e1.rcp --all=yes", "undefined"),
    ("sample e1.rcp --rule lft", "undefined"),
    (
        "sample e1.rcp --live 3 --as chart",
        "e1.rcp in Rcp by 1 from 0 so many 100 with 4 shows Best { live: Some(Live { times: 3 }), improve: false, form: Chart }",
    ),
    ("sample e1.rcp --live 1001", "undefined"),
    ("sample e1.rcp --all --live 3", "undefined"),
    ("sample", "undefined"),
    ("trial", "trial 1 of 100 and 4 by Number with 4"),
    (
        "trial --rule=lft --number 18446744073709551615 --workers 64 --activities 1000 --resources 16",
        "trial 18446744073709551615 of 1000 and 16 by Lft with 64",
    ),
    (
        "trial --number 0 --activities 02 --resources 00000000000000000000",
        "trial 0 of 2 and 0 by Number with 4",
    ),
    ("trial --activities 1", "undefined"),
    ("trial --activities 1001", "undefined"),
    ("trial --resources 17", "undefined"),
    ("trial --workers 0", "undefined"),
    ("trial e1.rcp", "undefined"),
    ("trial --improve", "undefined"),
    ("trial --seed 1", "undefined"),
];

#[test]
fn words_say_what_is_due(rt: HostRuntime) -> Result<(), Fail> {
    for (line, expected) in &LINES {
        let words = words_of(rt.alloc(), line)?;
        assert_eq!(rt; said(rt.alloc(), &words)?.as_str(), *expected, "{line}");
    }
    for (line, expected) in &MADE {
        let words = words_of(rt.alloc(), line)?;
        assert_eq!(rt; said(rt.alloc(), &words)?.as_str(), *expected, "{line}");
    }
    let none = Vec::new(rt.alloc());
    assert_eq!(rt; said(rt.alloc(), &none)?.as_str(), "undefined");
    Ok(())
}

// An empty name is a word of its own too.
#[test]
fn an_empty_file_is_undefined(rt: HostRuntime) -> Result<(), Fail> {
    let words = words_of(rt.alloc(), "schedule  --format rcp")?;
    assert_eq!(rt; words.len(), 4);
    assert_eq!(rt; said(rt.alloc(), &words)?.as_str(), "undefined");
    Ok(())
}

#[test]
fn a_flag_that_is_not_given(rt: HostRuntime) -> Result<(), Fail> {
    let words = words_of(rt.alloc(), "e1.rcp")?;
    let gathered = gather(rt.alloc(), "schedule", &words)?;
    assert_eq!(rt; gathered.flag("improve")?, false);
    Ok(())
}

#[test]
fn numbers_in_a_range(rt: HostRuntime) -> Result<(), Fail> {
    let greatest = u64::MAX;
    assert_eq!(rt; number_in("0", 0, greatest), Some(0));
    assert_eq!(rt; number_in("0", 1, 64), None);
    assert_eq!(rt; number_in("64", 1, 64), Some(64));
    assert_eq!(rt; number_in("65", 1, 64), None);
    assert_eq!(rt; number_in("00000000000000000064", 1, 64), Some(64));
    assert_eq!(rt; number_in("000000000000000000064", 1, 64), None);
    assert_eq!(rt;
        number_in("18446744073709551615", 0, greatest),
        Some(greatest)
    );
    assert_eq!(rt; number_in("18446744073709551616", 0, greatest), None);
    assert_eq!(rt; number_in("+1", 0, greatest), None);
    assert_eq!(rt; number_in("", 0, greatest), None);
    Ok(())
}

// Words of the batch program, and what they say.
static MANY: [(&str, &str); 12] = [
    ("e1.rcp", "4: e1.rcp"),
    (
        "e1.rcp e2.SM e1.rcp --workers 64",
        "64: e1.rcp e2.SM e1.rcp",
    ),
    ("--workers=1 e1.rcp", "1: e1.rcp"),
    ("e1.txt", "undefined"),
    ("e1.rcp -", "undefined"),
    ("e1.rcp -x.rcp", "undefined"),
    ("--workers 2", "undefined"),
    ("e1.rcp --workers 0", "undefined"),
    ("e1.rcp --workers 65", "undefined"),
    ("e1.rcp --workers", "undefined"),
    ("e1.rcp --workers 1 --workers 1", "undefined"),
    ("e1.rcp --format rcp", "undefined"),
];

#[test]
fn words_of_many_files(rt: HostRuntime) -> Result<(), Fail> {
    for (line, expected) in &MANY {
        let words = words_of(rt.alloc(), line)?;
        assert_eq!(rt;
            said_of_many(rt.alloc(), &words)?.as_str(),
            *expected,
            "{line}"
        );
    }
    let mut many = Vec::new(rt.alloc());
    assert_eq!(rt; said_of_many(rt.alloc(), &many)?.as_str(), "undefined");
    for _ in 0..101 {
        many.push(String::from_str(rt.alloc(), "e1.rcp")?)?;
    }
    assert_eq!(rt; said_of_many(rt.alloc(), &many)?.as_str(), "undefined");
    Ok(())
}

// What words of the batch program say, as a text.
fn said_of_many(alloc: Global, words: &[String]) -> Result<String, AllocError> {
    let many = match read_many(alloc, words) {
        Ok(many) => many,
        Err(WordsFault::Undefined) => return String::from_str(alloc, "undefined"),
        Err(WordsFault::Memory) => return Err(AllocError),
    };
    let workers = many.workers;
    let mut text = format!(in alloc; "{workers}:")?;
    for name in &many.names {
        text.push_str(" ")?;
        text.push_str(name.text())?;
    }
    Ok(text)
}

// The words of a line.
fn words_of(alloc: Global, line: &str) -> Result<Vec<String>, AllocError> {
    let mut words = Vec::new(alloc);
    for word in line.split(' ') {
        words.push(String::from_str(alloc, word)?)?;
    }
    Ok(words)
}

// What words say, as a text.
fn said(alloc: Global, words: &[String]) -> Result<String, AllocError> {
    let command = match read_words(alloc, words) {
        Ok(Options { command }) => command,
        Err(WordsFault::Undefined) => return String::from_str(alloc, "undefined"),
        Err(WordsFault::Memory) => return Err(AllocError),
    };
    match command {
        Command::Schedule(command) => said_schedule(alloc, &command),
        Command::Parallel(command) => said_parallel(alloc, &command),
        Command::Sample(command) => said_sample(alloc, &command),
        Command::Check(CheckCommand { file, format, plan }) => {
            format!(in alloc; "{file} in {format:?} with the plan {plan}")
        }
        Command::Convert(ConvertCommand { file, format, to }) => {
            format!(in alloc; "{file} in {format:?} to {to:?}")
        }
        Command::Windows(WindowsCommand { file, format }) => {
            format!(in alloc; "windows of {file} in {format:?}")
        }
        Command::Trial(command) => said_trial(alloc, &command),
    }
}

// What the words of `schedule` say, as a text.
fn said_schedule(alloc: Global, command: &ScheduleCommand) -> Result<String, AllocError> {
    let said = FollowsList {
        file: &command.file,
        format: command.format,
        order: &command.order,
        form: command.form,
        calendar: &command.calendar,
    };
    let mut text = said.text(alloc)?;
    if let Some(rounds) = &command.descend {
        let count = rounds.count();
        text.push_str(format!(in alloc; " descended {count}")?.as_str())?;
    }
    if command.improve {
        text.push_str(" improved")?;
    }
    let workers = command.workers.count();
    if workers != 4 {
        write!(text, " with {workers}")?;
    }
    if let Some(live) = &command.live {
        let times = live.times();
        write!(text, " told {times}")?;
    }
    Ok(text)
}

// What the words of `sample` say, as a text.
fn said_sample(alloc: Global, command: &SampleCommand) -> Result<String, AllocError> {
    let file = &command.file;
    let format = command.format;
    let seed = command.seed;
    let from = command.samples.from();
    let count = command.samples.count();
    let workers = command.workers.count();
    let shown = &command.shown;
    format!(in alloc;
        "{file} in {format:?} by {seed} from {from} so many {count} with {workers} shows {shown:?}"
    )
}

// What the words of `trial` say, as a text.
fn said_trial(alloc: Global, command: &TrialCommand) -> Result<String, AllocError> {
    let number = command.number;
    let activities = command.size.activities();
    let resources = command.size.resources();
    let rule = command.rule;
    let workers = command.workers.count();
    format!(in alloc; "trial {number} of {activities} and {resources} by {rule:?} with {workers}")
}

// What the words of `parallel` say, as a text.
fn said_parallel(alloc: Global, command: &ParallelCommand) -> Result<String, AllocError> {
    let said = FollowsList {
        file: &command.file,
        format: command.format,
        order: &command.order,
        form: command.form,
        calendar: &command.calendar,
    };
    said.text(alloc)
}

// What the words of a command say that follows a list.
#[derive(Clone, Copy)]
struct FollowsList<'c> {
    file: &'c Name,
    format: Format,
    order: &'c Order,
    form: Form,
    calendar: &'c Option<Name>,
}

impl<'c> FollowsList<'c> {
    // It as a text.
    fn text(self, alloc: Global) -> Result<String, AllocError> {
        let FollowsList {
            file,
            format,
            form,
            ..
        } = self;
        let mut text = match self.order {
            Order::Rule(rule) => format!(in alloc; "{file} in {format:?} by {rule:?} as {form:?}")?,
            Order::List(list) => {
                format!(in alloc; "{file} in {format:?} by the list {list} as {form:?}")?
            }
        };
        if let Some(calendar) = self.calendar {
            text.push_str(" on ")?;
            text.push_str(calendar.text())?;
        }
        Ok(text)
    }
}
