ghost use Rattle.std.specs.Prelude.{◌≤◌, IfOk};

use super::*;
use std::alloc::Global;
use std::io::{self, Read, Write};
use std::test::Fail;
use tri_base::{NoMemory, Text, push_bytes};

const POINTS: &[u8] = b"DI START 0 1 0\nAO VALVE 0 1000 0\n";

fn text_of(alloc: Global, bytes: &[u8]) -> Result<Text, NoMemory> {
    let mut text = Text::new(alloc);
    push_bytes(&mut text, bytes)?;
    Ok(text)
}

#[test]
fn a_source_is_read_to_its_end_within_the_limit(rt: HostRuntime) -> Result<(), Fail> {
    for (limit, piece) in [(33, 1), (33, 16), (usize::MAX, 5000)] {
        let bytes = text_of(rt.alloc(), POINTS)?;
        let mut source = MemorySource::new(bytes, piece, Vec::new(rt.alloc()));
        let text = read_all(rt.alloc(), &mut source, limit)?;
        assert_eq!(rt; text.bytes(), POINTS, "limit {limit}");
    }
    let mut source = SureSource::new(text_of(rt.alloc(), POINTS)?);
    let text = read_all(rt.alloc(), &mut source, 33)?;
    assert_eq!(rt; text.bytes(), POINTS);
    Ok(())
}

#[test]
fn reading_ends_past_the_limit_and_at_a_failing_call(rt: HostRuntime) -> Result<(), Fail> {
    let rows = [
        (32, 7, 9, ReadAll::TooLong),
        (0, 16, 9, ReadAll::TooLong),
        (32, 16, 2, ReadAll::Failed),
        (33, 16, 4, ReadAll::Failed),
    ];
    for (limit, piece, call, want) in rows {
        let bytes = text_of(rt.alloc(), POINTS)?;
        let mut source = MemorySource::new(bytes, piece, vec![in rt.alloc(); call]?);
        match read_all(rt.alloc(), &mut source, limit) {
            Ok(_) => panic!(rt; "limit {limit}"),
            Err(cause) => assert!(rt; cause == want, "limit {limit}"),
        }
    }
    Ok(())
}

#[test]
fn a_failing_put_leaves_the_pieces_before_it(rt: HostRuntime) -> Result<(), Fail> {
    for (room, call, taken) in [(33, 9, 33), (33, 3, 32), (31, 9, 16), (0, 9, 0)] {
        let mut sink = MemorySink::new(rt.alloc(), 16, vec![in rt.alloc(); call]?);
        sink.reserve(room)?;
        let outcome = write_all(&mut sink, POINTS);
        assert!(rt;
            outcome.is_ok() == (taken == 33),
            "room {room}, call {call}"
        );
        assert_eq!(rt; sink.bytes(), &POINTS[..taken], "room {room}, call {call}");
    }
    Ok(())
}

/// Takes up to 3,000 bytes a call, and notes how many it was offered.
#[derive(Drop)]
struct Offers {
    sizes: Vec<usize>,
}

impl Sink for Offers {
    ghost use Rattle.std.specs.Prelude.{None, ◌-◌, ◌^◌};

    ghost taken = { λ _. None };

    ghost faults = { λ _. 2 ^ 64 - 1 };

    fn put(&mut self, bytes: &[u8]) -> Result<usize, SinkFailed> {
        self.sizes.push(bytes.len()).map_err(|_| SinkFailed)?;
        Ok(bytes.len().min(3000))
    }
}

#[test]
fn bytes_are_offered_in_pieces_of_4096_of_the_whole(rt: HostRuntime) -> Result<(), Fail> {
    let mut sink = Offers {
        sizes: Vec::new(rt.alloc()),
    };
    write_all(&mut sink, &[b'X'; 10000])?;
    let want = [4096, 1096, 4096, 1096, 1808];
    assert_eq!(rt; sink.sizes.as_slice(), want.as_slice());
    write_all(&mut sink, b"")?;
    assert_eq!(rt; sink.sizes.len(), 5);
    Ok(())
}

/// A reader and a writer that moves up to 16 bytes a call, and fails at one of its calls.
#[derive(Drop)]
struct Flaky {
    calls: u64,
    failing: u64,
}

impl Flaky {
    /// How many of so many bytes the next call moves.
    fn step(&mut self, count: usize) -> io::Result<usize>
        ensures { IfOk result (λ n. n ≤ count) }
    {
        self.calls = self.calls.saturating_add(1);
        if self.calls == self.failing {
            return Err(io::Error::from(io::ErrorKind::BrokenPipe));
        }
        Ok(count.min(16))
    }
}

impl Read for Flaky {
    fn read(&mut self, buffer: &mut [u8]) -> io::Result<usize> {
        if self.calls > 2 {
            return Ok(0);
        }
        self.step(buffer.len())
    }
}

impl Write for Flaky {
    fn write(&mut self, bytes: &[u8]) -> io::Result<usize> {
        self.step(bytes.len())
    }

    fn flush(&mut self) -> io::Result<()> {
        Ok(())
    }
}

#[test]
fn a_stream_that_fails_in_between_is_neither_whole_nor_at_its_end(
    rt: HostRuntime,
) -> Result<(), Fail> {
    for failing in [1, 2, 3, 4] {
        let mut source = ReaderSource::new(Flaky { calls: 0, failing });
        let read = read_all(rt.alloc(), &mut source, 100);
        assert!(rt; read.is_ok() == (failing > 3), "call {failing}");
        let mut sink = WriterSink::new(Flaky { calls: 0, failing });
        let written = write_all(&mut sink, POINTS);
        assert!(rt; written.is_ok() == (failing > 3), "call {failing}");
    }
    Ok(())
}

#[test]
fn standard_input_and_output_answer(rt: HostRuntime) -> Result<(), Fail> {
    assert_eq!(rt; StdSource::new(rt.stdin()).read(&mut [])?, 0);
    write_all(&mut StdSink::new(rt.stdout()), b"tri_io\n")?;
    Ok(())
}
