//! Runs over devices that fail.
use iv_machine::Limits;
use iv_script::{DeviceFault, Format, RunFault, Sink, Source, Std, Style, Summary, run};
use iv_session::Session;
use iv_store_plain::PlainStore;
use std::alloc::Global;
use std::io;
use std::io::{ErrorKind, Read, Write};
use std::panic::Expect;
use std::process::Abort;

const ONE_CHECK: &str =
    "CREATE TABLE t (a INTEGER, CHECK (a > 0)); INSERT INTO t VALUES (1); COMMIT; SELECT * FROM t;";

// A source that gives so many bytes at a call, and fails at one of its calls.
#[derive(Drop)]
struct ChunkedSource<'a> {
    text: &'a [u8],
    at_once: usize,
    fails_at: u64,
    calls: u64,
    failed: u64,
    given: u64,
    asked: u64,
    ends: u64,
}

impl<'a> Source for ChunkedSource<'a> {
    ghost failed = { λ s. s.failed };

    ghost given = { λ s. s.given };

    ghost asked = { λ s. s.asked };

    ghost ends = { λ s. s.ends };

    fn read(&mut self, buffer: &mut [u8]) -> Result<usize, DeviceFault> {
        self.asked = self
            .asked
            .max(self.given.saturating_add(buffer.len() as u64));
        self.calls = self.calls.saturating_add(1);
        if self.calls == self.fails_at {
            self.failed = self.failed.saturating_add(1);
            return Err(DeviceFault);
        }
        let count = buffer.len().min(self.text.len()).min(self.at_once);
        buffer[..count].copy_from_slice(&self.text[..count]);
        self.text = &self.text[count..];
        self.given = self.given.saturating_add(count as u64);
        if count == 0 && !buffer.is_empty() {
            self.ends = self.ends.saturating_add(1);
        }
        Ok(count)
    }
}

fn chunks(text: &[u8], fails_at: u64) -> ChunkedSource<'_> {
    ChunkedSource {
        text,
        at_once: 40,
        fails_at,
        calls: 0,
        failed: 0,
        given: 0,
        asked: 0,
        ends: 0,
    }
}

// A sink that takes one byte at a call, and fails at one of its calls.
#[derive(Drop)]
struct ByteSink {
    fails_at: u64,
    calls: u64,
    failed: u64,
}

impl Sink for ByteSink {
    ghost use Rattle.std.specs.Prelude.{None};
    ghost use Rattle.iv_text.specs.Sinks.{sink_state};

    ghost state = { λ s. sink_state None s.failed };

    fn write(&mut self, bytes: &[u8]) -> Result<usize, DeviceFault> {
        self.calls = self.calls.saturating_add(1);
        if self.calls == self.fails_at {
            self.failed = self.failed.saturating_add(1);
            return Err(DeviceFault);
        }
        Ok(bytes.len().min(1))
    }
}

fn drops(fails_at: u64) -> ByteSink {
    ByteSink {
        fails_at,
        calls: 0,
        failed: 0,
    }
}

// A sink that takes all bytes of a call, and counts calls and bytes.
#[derive(Drop)]
struct CountingSink {
    calls: u64,
    bytes: u64,
}

impl Sink for CountingSink {
    ghost use Rattle.std.specs.Prelude.{None};
    ghost use Rattle.iv_text.specs.Sinks.{sink_state};

    ghost state = { λ _. sink_state None 0 };

    fn write(&mut self, bytes: &[u8]) -> Result<usize, DeviceFault> {
        self.calls = self.calls.saturating_add(1);
        self.bytes = self.bytes.saturating_add(bytes.len() as u64);
        Ok(bytes.len())
    }
}

// A reader and a writer of one byte at a call, of which each second call fails.
#[derive(Drop)]
struct InTurn {
    calls: u64,
}

impl InTurn {
    fn works(&mut self) -> io::Result<()> {
        self.calls = self.calls.saturating_add(1);
        if self.calls % 2 == 0 {
            return Err(io::Error::from(ErrorKind::Interrupted));
        }
        Ok(())
    }
}

impl Read for InTurn {
    fn read(&mut self, buffer: &mut [u8]) -> io::Result<usize> {
        self.works()?;
        let count = buffer.len().min(1);
        buffer[..count].fill(b'x');
        Ok(count)
    }
}

impl Write for InTurn {
    fn write(&mut self, bytes: &[u8]) -> io::Result<usize> {
        self.works()?;
        Ok(bytes.len().min(1))
    }

    fn flush(&mut self) -> io::Result<()> {
        Ok(())
    }
}

// A run in a session, within the limits that a session usually has.
fn run_session<R: Source, W: Sink>(
    rt: &impl Abort,
    alloc: Global,
    source: &mut R,
    sink: &mut W,
) -> Result<Summary, RunFault> {
    let limits = Limits::new(16, 65_536).expect(rt, "limits");
    let style = Style {
        format: Format::Words,
        explain: false,
    };
    run::<Session<PlainStore>, R, W>(alloc, source, sink, limits, style)
}

// What a run answers, in a word.
fn word_of(done: Result<Summary, RunFault>) -> &'static str {
    match done {
        Ok(_) => "ran",
        Err(RunFault::Read) => "read",
        Err(RunFault::Write) => "write",
        Err(_) => "another",
    }
}

// What a run over this source answers, how often it writes, and how many bytes.
fn ran<R: Source>(rt: &impl Abort, alloc: Global, source: &mut R) -> (&'static str, u64, u64) {
    let mut sink = CountingSink { calls: 0, bytes: 0 };
    let done = run_session(rt, alloc, source, &mut sink);
    (word_of(done), sink.calls, sink.bytes)
}

#[test]
fn counts_what_it_ran(rt: HostRuntime) {
    let mut sink = Std::new(Vec::new(rt.alloc()));
    let mut source = Std::new(ONE_CHECK.as_bytes());
    let done = run_session(&rt, rt.alloc(), &mut source, &mut sink);
    let wanted = Summary {
        accepted: 4,
        refused: 0,
        memory_refused: 0,
        fault: None,
        untold: 0,
    };
    let text = sink.into_inner();
    assert!(rt; done == Ok(wanted));
    assert!(rt; text.as_slice() == b"1 ok\n2 ok 1\n3 ok\n4 rows 1\n| 1\n".as_slice());
}

// Three calls give the text's 94 bytes, and a fourth reports its end. The transcript has 30 bytes.
#[test]
fn tells_a_read_that_fails(rt: HostRuntime) {
    for (fails_at, wanted) in [
        (1u64, ("read", 0u64, 0u64)),
        (2, ("read", 0, 0)),
        (4, ("read", 0, 0)),
        (5, ("ran", 1, 30)),
    ] {
        let mut source = chunks(ONE_CHECK.as_bytes(), fails_at);
        assert_eq!(rt; ran(&rt, rt.alloc(), &mut source), wanted);
    }
}

#[test]
fn device_fails_where_the_one_under_it_does(rt: HostRuntime) {
    let mut buffer = [0u8; 4];
    let mut reader = Std::new(InTurn { calls: 0 });
    let mut writer = Std::new(InTurn { calls: 0 });
    for call in 0..6u64 {
        let wanted = if call % 2 == 0 {
            Ok(1)
        } else {
            Err(DeviceFault)
        };
        assert!(rt; Source::read(&mut reader, &mut buffer) == wanted);
        assert!(rt; Sink::write(&mut writer, b"xy") == wanted);
    }
}

// What a run answers whose sink fails at this call.
fn written_until(rt: &impl Abort, alloc: Global, fails_at: u64) -> &'static str {
    let mut source = Std::new(ONE_CHECK.as_bytes());
    word_of(run_session(rt, alloc, &mut source, &mut drops(fails_at)))
}

// Each byte of the transcript is a write of its own.
#[test]
fn tells_each_write_that_fails(rt: HostRuntime) {
    for fails_at in 1..31u64 {
        assert!(rt; written_until(&rt, rt.alloc(), fails_at) == "write");
    }
    assert!(rt; written_until(&rt, rt.alloc(), 31) == "ran");
}

// What a run of so many COMMITs answers, how often it writes, and how many bytes.
fn ran_commits(rt: &impl Abort, alloc: Global, statements: usize) -> (&'static str, u64, u64) {
    let text = "COMMIT;".repeat(alloc, statements).expect(rt, "memory");
    ran(rt, alloc, &mut Std::new(text.as_bytes()))
}

// The line of a COMMIT has its number and four bytes more.
#[test]
fn writes_are_few(rt: HostRuntime) {
    assert_eq!(rt; ran_commits(&rt, rt.alloc(), 0), ("ran", 0, 0));
    assert_eq!(rt; ran_commits(&rt, rt.alloc(), 1000), ("ran", 1, 6893));
    assert_eq!(rt; ran_commits(&rt, rt.alloc(), 2000), ("ran", 2, 14893));
}
