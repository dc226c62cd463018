use crate::text::Text;
use rc_edge::{MemFiles, MemSink, NoGate};
use rcpsp_run::run;
use std::alloc::{AllocError, Global};
use std::process::Abort;
use std::test::Fail;
use std::thread::Threads;

// The words of a line, the files that there are, and what their run comes to.
pub(crate) struct Case {
    pub(crate) words: &'static str,
    pub(crate) files: &'static [(&'static str, Text)],
    pub(crate) status: u8,
    pub(crate) out: Text,
    pub(crate) note: Text,
}

// What one run did.
#[derive(Debug, Drop)]
pub(crate) struct Ran {
    pub(crate) status: u8,
    pub(crate) out: String,
    pub(crate) note: String,
}

// Runs each case, and compares its status and both its texts.
pub(crate) fn each_comes_true<R: Threads + Sync + Abort>(
    rt: &R,
    alloc: Global,
    cases: &[Case],
) -> Result<(), Fail> {
    for (number, case) in cases.iter().enumerate() {
        let words = case.words;
        let mut files = Vec::new(alloc);
        for (name, text) in case.files {
            let text = text.whole(alloc)?;
            files.push(file(alloc, name, text.as_bytes())?)?;
        }
        let mut out = MemSink::new(alloc, 10_000, 10_000, Vec::new(alloc))?;
        let ran = run_line(rt, alloc, words, files, &mut out)?;
        assert_eq!(rt; ran.status, case.status, "case {number}: {words}");
        assert_eq!(rt; ran.out, case.out.whole(alloc)?, "case {number}: {words}");
        assert_eq!(rt; ran.note, case.note.whole(alloc)?, "case {number}: {words}");
    }
    Ok(())
}

// Runs the words of a line over these files and this output.
pub(crate) fn run_line(
    rt: &(impl Threads + Sync),
    alloc: Global,
    line: &str,
    files: Vec<(String, Vec<u8>)>,
    out: &mut MemSink,
) -> Result<Ran, Fail> {
    let words = words_of(alloc, line)?;
    let mut files = MemFiles::new(files, Vec::new(alloc));
    let mut note = MemSink::new(alloc, 1000, 1000, Vec::new(alloc))?;
    let status = run(rt, alloc, &words, &mut files, out, &mut note, &NoGate).code();
    Ok(Ran {
        status,
        out: text_of(alloc, out.bytes())?,
        note: text_of(alloc, note.bytes())?,
    })
}

// Bytes as a text.
pub(crate) fn text_of(alloc: Global, bytes: &[u8]) -> Result<String, Fail> {
    let bytes = Vec::from_slice(alloc, bytes)?;
    Ok(String::from_utf8(bytes)?)
}

// A name with its bytes.
pub(crate) fn file(
    alloc: Global,
    name: &str,
    bytes: &[u8],
) -> Result<(String, Vec<u8>), AllocError> {
    let name = String::from_str(alloc, name)?;
    let bytes = Vec::from_slice(alloc, bytes)?;
    Ok((name, bytes))
}

// The words of a line.
pub(crate) fn words_of(alloc: Global, line: &str) -> Result<Vec<String>, AllocError> {
    let mut words = Vec::new(alloc);
    for word in line.split_ascii_whitespace() {
        words.push(String::from_str(alloc, word)?)?;
    }
    Ok(words)
}
