use std::alloc::{AllocError, Global};

// A text, given by its lines.
#[derive(Clone, Copy, Debug)]
pub(crate) enum Text {
    // Each line ends with a line feed.
    Lines(&'static [&'static str]),

    // Between two lines stands a line feed, and none after the last.
    Cut(&'static [&'static str]),

    // Between two lines stand a carriage return and a line feed, and none after the last.
    Crlf(&'static [&'static str]),
}

impl Text {
    // The whole of it.
    pub(crate) fn whole(&self, alloc: Global) -> Result<String, AllocError> {
        match self {
            Text::Lines(lines) => joined(alloc, lines, "", "\n"),
            Text::Cut(lines) => joined(alloc, lines, "\n", ""),
            Text::Crlf(lines) => joined(alloc, lines, "\r\n", ""),
        }
    }
}

// The lines, with `between` before each but the first, and `after` after each.
fn joined(alloc: Global, lines: &[&str], between: &str, after: &str) -> Result<String, AllocError> {
    let mut text = String::new(alloc);
    for (index, line) in lines.iter().enumerate() {
        if index > 0 {
            text.push_str(between)?;
        }
        text.push_str(line)?;
        text.push_str(after)?;
    }
    Ok(text)
}
