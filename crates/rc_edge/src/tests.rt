ghost use Rattle.std.specs.Prelude.{◌≡◌, ◌≢◌, ◌+◌, ◌^◌, ◌<◌, Err, IsSome, IsErrOf, length};
ghost use Rattle.rc_edge.specs.Faults.{Rose};
ghost use Rattle.rc_edge.specs.Files.{file_of, pairs_of};
ghost use Rattle.rc_edge.specs.declared.files.FetchFault.TheVariants.{Failed};

use crate::{
    FetchFault, Files, Gate, MemFiles, MemSink, NoGate, Point, RealFiles, RealNote, RealOut, Sink,
    SinkFault, fetch_all, put_all,
};
use rc_instance::Memory;
use std::alloc::{AllocError, Global};
use std::test::Fail;

fn file(alloc: Global, name: &str, text: &[u8]) -> Result<(String, Vec<u8>), AllocError> {
    Ok((
        String::from_str(alloc, name)?,
        Vec::from_slice(alloc, text)?,
    ))
}

#[test]
fn mem_files_answer_by_number_name_and_limit(rt: HostRuntime) -> Result<(), Fail> {
    let alloc = rt.alloc();
    let files = vec![in alloc;
        file(alloc, "a", b"one")?,
        file(alloc, "b", b"three")?,
        file(alloc, "a", b"two")?,
    ]?;
    let mut files = MemFiles::new(files, vec![in alloc; 1]?);
    let mut into = Vec::from_slice(alloc, b"old")?;
    for (name, limit, answer, text) in [
        ("a", 3, Ok(()), "one"),
        ("a", 3, Err(FetchFault::Failed), ""),
        ("c", 3, Err(FetchFault::Failed), ""),
        ("b", 3, Err(FetchFault::TooLarge), "thre"),
        ("b", 4, Err(FetchFault::TooLarge), "three"),
        ("b", 5, Ok(()), "three"),
    ] {
        assert_eq!(rt;
            files.fetch(name, limit, &mut into),
            answer,
            "{name} {limit}"
        );
        assert_eq!(rt; into.as_slice(), text.as_bytes(), "{name} {limit}");
    }
    Ok(())
}

#[test]
fn fetch_all_stops_at_the_first_refused(rt: HostRuntime) -> Result<(), Fail> {
    let alloc = rt.alloc();
    let files = vec![in alloc; file(alloc, "a", b"one")?, file(alloc, "b", b"three")?]?;
    let mut files = MemFiles::new(files, Vec::new(alloc));
    for (limit, second, refused) in [
        (5, "b", None),
        (4, "b", Some((1, FetchFault::TooLarge))),
        (5, "c", Some((1, FetchFault::Failed))),
        (2, "c", Some((0, FetchFault::TooLarge))),
    ] {
        let answer = fetch_all(alloc, &["a", second, "a"], limit, &mut files);
        assert_eq!(rt; answer.err(), refused, "{second} {limit}");
    }
    let texts = fetch_all(alloc, &["b", "a"], 5, &mut files)
        .ok()
        .ok_or("refused")?;
    assert_eq!(rt; texts.len(), 2);
    assert_eq!(rt; texts[0].as_slice(), b"three".as_slice());
    assert_eq!(rt; texts[1].as_slice(), b"one".as_slice());
    Ok(())
}

#[test]
fn mem_sink_answers_by_number_and_room(rt: HostRuntime) -> Result<(), Fail> {
    let alloc = rt.alloc();
    let mut sink = MemSink::new(alloc, 3, 2, vec![in alloc; 1]?)
        .ok()
        .ok_or("memory")?;
    for (piece, answer, held) in [
        ("abc", Ok(2), "ab"),
        ("c", Err(SinkFault::Failed), "ab"),
        ("", Ok(0), "ab"),
        ("cd", Ok(1), "abc"),
        ("", Ok(0), "abc"),
        ("d", Err(SinkFault::Failed), "abc"),
    ] {
        assert_eq!(rt; sink.put(piece.as_bytes()), answer, "{piece} to {held}");
        assert_eq!(rt; sink.bytes(), held.as_bytes(), "{piece} to {held}");
    }
    Ok(())
}

#[test]
fn put_all_goes_on_piece_by_piece(rt: HostRuntime) -> Result<(), Fail> {
    let alloc = rt.alloc();
    let mut sink = MemSink::new(alloc, 5, 1, vec![in alloc; 4]?)
        .ok()
        .ok_or("memory")?;
    assert_eq!(rt; put_all(&mut sink, b"abc"), Ok(()));
    assert_eq!(rt; put_all(&mut sink, b"de"), Err(SinkFault::Failed));
    assert_eq!(rt; put_all(&mut sink, b"ef"), Err(SinkFault::Failed));
    assert_eq!(rt; sink.bytes(), b"abcde".as_slice());
    Ok(())
}

#[test]
fn real_files_answer_by_name_and_limit(rt: HostRuntime) {
    let mut files = RealFiles::new(&rt);
    let mut into = Vec::new(rt.alloc());
    for (name, answer, text) in [
        ("/dev/null", Ok(()), ""),
        ("/dev/zero", Err(FetchFault::TooLarge), "\0\0\0\0"),
        ("/no/such/file", Err(FetchFault::Failed), ""),
        ("/dev", Err(FetchFault::Failed), ""),
    ] {
        assert_eq!(rt; files.fetch(name, 3, &mut into), answer, "{name}");
        assert_eq!(rt; into.as_slice(), text.as_bytes(), "{name}");
    }
}

#[test]
fn standard_input_is_a_file(rt: HostRuntime) -> Result<(), Fail> {
    let mut files = RealFiles::new(&rt);
    let texts = fetch_all(rt.alloc(), &["-", "/dev/null"], 3, &mut files)
        .ok()
        .ok_or("refused")?;
    assert_eq!(rt; texts.len(), 2);
    assert!(rt; texts[0].is_empty(), "a test has nothing on standard input");
    Ok(())
}

fn is_send<T: Send>(_: &T) {}

fn is_sync<T: Sync>(_: &T) {}

#[test]
fn sinks_cross_threads_and_the_gate_is_shared(rt: HostRuntime) -> Result<(), Fail> {
    let alloc = rt.alloc();
    let sink = MemSink::new(alloc, 1, 1, Vec::new(alloc))
        .ok()
        .ok_or("memory")?;
    let mut out = RealOut::new(rt.stdout());
    let mut note = RealNote::new(rt.stderr());
    is_send(&sink);
    is_send(&out);
    is_send(&note);
    is_send(&NoGate);
    is_sync(&NoGate);
    NoGate.at(1, Point::Claimed, 0);
    assert_eq!(rt; put_all(&mut out, b"out\n"), Ok(()));
    assert_eq!(rt; put_all(&mut note, b"note\n"), Ok(()));
    Ok(())
}

/// Code over any files, which hands on what a fetch says.
fn fetched<F: Files>(files: &mut F, name: &str, into: &mut Vec<u8>) -> Result<(), FetchFault>
    ensures told { F.told files.new ≡ F.told files.old }
    ensures failing { F.failing files.new ≡ F.failing files.old }
    ensures failed { IsErrOf result Failed →
        Rose (F.faults files.old name.now) (F.faults files.new name.now) }
{
    files.fetch(name, 1000, into)
}

/// A file in memory is never refused as failed where nothing in `failing` makes it so.
fn fetched_in_memory(
    alloc: Global,
    files: Vec<(String, Vec<u8>)>,
    name: &str,
    into: &mut Vec<u8>,
) -> Result<(), FetchFault>
    requires { IsSome (file_of (pairs_of files.items) name.now) }
    ensures { result ≢ Err Failed }
{
    let mut files = MemFiles::new(files, Vec::new(alloc));
    fetched(&mut files, name, into)
}

/// A sink in memory with more room than bytes takes them all.
fn written_in_memory(alloc: Global, bytes: &[u8]) -> Result<MemSink, Memory>
    requires { length bytes.now < 2 ^ 31 }
{
    let mut sink = MemSink::new(alloc, bytes.len() + 1, 7, Vec::new(alloc))?;
    match put_all(&mut sink, bytes) {
        Ok(()) => Ok(sink),
        Err(_) => unreachable!(),
    }
}
