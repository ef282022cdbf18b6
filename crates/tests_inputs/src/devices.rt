//! Files and sinks, in memory and of the host.

use outside::{
    FileAnswer, Files, HostFiles, HostSink, MemFiles, MemSink, NoFaultFiles, Sink, TurnReader,
    Turns, take_up_to, write_pieces, write_whole,
};
use std::alloc::Global;
use std::process::Abort;
use std::{env, fs, process};

// More than a vector grows by before one read.
const LONG: usize = 300_000;

// The bytes before the last one are taken without a failure.
fn has_front(rt: &impl Abort, (front, failures): (&[u8], u64), whole: &[u8]) {
    assert_eq!(rt; front.len(), whole.len().saturating_sub(1));
    assert!(rt; whole.starts_with(front) && failures == 0);
}

#[test]
fn host_files_are_read_as_host_sinks_wrote_them(rt: HostRuntime) {
    let alloc = rt.alloc();
    let mut path = env::temp_dir(&rt).expect(&rt, "a folder");
    let id = process::id(rt.process());
    let name = format!(in alloc; "outside-{id}").expect(&rt, "memory");
    path.push(name.as_str()).expect(&rt, "memory");
    let name = path.into_string();

    let bytes = vec![in alloc; 7u8; LONG].expect(&rt, "memory");
    let mut sink = HostSink::new(fs::create(&rt, name.as_str()).expect(&rt, "a file"));
    assert!(rt; write_whole(&mut sink, &bytes).is_ok());
    assert!(rt; write_pieces(&mut sink, &[b"ab", b"", b"c"]).is_ok());

    let mut files = HostFiles::new(&rt);
    let len = LONG as u64 + 3;
    let read = files.read(alloc, name.as_str(), len);
    let too_long = files.read(alloc, name.as_str(), len - 1);
    let open = fs::open(&rt, name.as_str()).expect(&rt, "a file");
    let mut file = TurnReader::new(open, Turns::new());
    let (front, outcome) = take_up_to(alloc, &mut file, len - 1);
    fs::remove_file(&rt, name.as_str()).expect(&rt, "the file");
    let absent = files.read(alloc, name.as_str(), len);
    let read = read.expect(&rt, "the file");
    assert_eq!(rt; read.len() as u64, len);
    assert!(rt; read.starts_with(&bytes) && read.ends_with(b"abc"));
    assert_eq!(rt; too_long.err(), Some(FileAnswer::TooLong));
    assert!(rt; outcome.is_ok());
    has_front(&rt, (&front, file.failures()), &read);
    assert_eq!(rt; absent.err(), Some(FileAnswer::Failed));
}

// A sink in memory, whose call of a number fails.
fn sink_of(rt: &impl Abort, alloc: Global, room: usize, take: usize, failing: u64) -> MemSink {
    let failing = vec![in alloc; failing].expect(rt, "memory");
    MemSink::new(alloc, room, take, failing).expect(rt, "memory")
}

// How many bytes a sink holds and takes in a call, and the call that fails; how many bytes it holds then, and whether
// all were written.
const SINKS: [(usize, usize, u64, usize, bool); 5] = [
    (20, 10, 2, 10, true),
    (20, 0, 11, 10, true),
    (20, 4, 2, 4, false),
    (20, 1, 8, 7, false),
    (6, 10, 3, 6, false),
];

#[test]
fn sinks_in_memory_take_what_they_are_told(rt: HostRuntime) {
    for &(room, take, failing, held, whole) in &SINKS {
        let mut sink = sink_of(&rt, rt.alloc(), room, take, failing);
        let done = write_whole(&mut sink, b"0123456789").is_ok();
        let bytes = sink.written();
        assert_eq!(rt;
            (bytes.len(), done),
            (held, whole),
            "room {room}, take {take}, failing {failing}"
        );
        assert!(rt; b"0123456789".starts_with(bytes));
    }
}

#[test]
fn pieces_are_written_up_to_the_end_of_a_sink(rt: HostRuntime) {
    let sink = MemSink::new(rt.alloc(), 9, 100, Vec::new(rt.alloc()));
    let mut sink = sink.expect(&rt, "memory");
    assert!(rt; write_pieces(&mut sink, &[b"one", b"", b"two"]).is_ok());
    assert!(rt; write_pieces(&mut sink, &[b"three", b"four"]).is_err());
    assert!(rt; sink.written() == b"onetwothr".as_slice());
}

const PAIRS: [(&str, &[u8]); 3] = [("a", b"one"), ("b", b"two!"), ("a", b"three")];

// Three pairs. The third has the name of the first, so it is never read.
fn pairs_in(rt: &impl Abort, alloc: Global) -> Vec<(String, Vec<u8>)> {
    let mut pairs = Vec::new(alloc);
    for &(name, bytes) in &PAIRS {
        let name = String::from_str(alloc, name).expect(rt, "memory");
        let bytes = bytes.to_vec(alloc).expect(rt, "memory");
        pairs.push((name, bytes)).expect(rt, "memory");
    }
    pairs
}

// The read of a file returns this text, or is refused for its length.
fn is_read(
    rt: &impl Abort,
    alloc: Global,
    files: &mut impl Files,
    (name, limit): (&str, u64),
    want: Option<&str>,
) {
    match (files.read(alloc, name, limit), want) {
        (Ok(bytes), Some(text)) => assert!(rt; bytes.as_slice() == text.as_bytes()),
        (Err(e), None) => assert_eq!(rt; e, FileAnswer::TooLong),
        _ => assert!(rt; false, "{name} with limit {limit}"),
    }
}

// Names, limits, and what their reads return.
const READS: [(&str, u64, Option<&str>); 4] = [
    ("a", 3, Some("one")),
    ("b", 4, Some("two!")),
    ("b", 3, None),
    ("absent", 0, Some("")),
];

#[test]
fn files_in_memory_hold_their_pairs(rt: HostRuntime) {
    let alloc = rt.alloc();
    let mut sound = NoFaultFiles::new(pairs_in(&rt, alloc));
    let failing = vec![in alloc; 1, 6].expect(&rt, "memory");
    let mut files = MemFiles::new(pairs_in(&rt, alloc), failing);
    assert_eq!(rt; files.read(alloc, "a", 3).err(), Some(FileAnswer::Failed));
    for &(name, limit, want) in &READS {
        is_read(&rt, alloc, &mut files, (name, limit), want);
        is_read(&rt, alloc, &mut sound, (name, limit), want);
    }
    assert_eq!(rt; files.read(alloc, "a", 3).err(), Some(FileAnswer::Failed));
}

#[test]
fn a_listed_call_fails_for_its_file_alone(rt: HostRuntime) {
    let alloc = rt.alloc();
    for failing in [1, 2] {
        let numbers = vec![in alloc; failing].expect(&rt, "memory");
        let mut files = MemFiles::new(pairs_in(&rt, alloc), numbers);
        for (call, name) in [(1, "a"), (2, "b")] {
            let answer = files.read(alloc, name, 9);
            if call == failing {
                assert_eq!(rt; answer.err(), Some(FileAnswer::Failed));
            } else {
                assert!(rt; answer.is_ok(), "call {call} where call {failing} fails");
            }
        }
    }
}
