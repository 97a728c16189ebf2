//! Devices in memory, and the adapters over streams that expose their bytes, break or are interrupted.

ghost use Rattle.std.specs.Prelude.{◌≡◌, ℕ, ◌<◌, ◌≤◌, ◌++◌, min, List, length, take, IsOk, IfOk, OnOk};
ghost use Rattle.zf_dev.specs.Faults.{IsQuiet};
ghost use Rattle.zf_dev.specs.Real.{sink_stream, sink_held};
ghost use Rattle.zf_dev.specs.Sink.{Appends, AppendsPrefix};
ghost use Rattle.zf_dev.specs.Source.{Takes, IsAtEnd};

use std::io;
use std::io::{ErrorKind, Read, Write};
use std::marker::{Brand, PhantomData};
use std::test::Fail;
use zf_dev::{
    Failed, MemSink, MemSource, RealSink, RealSource, Sink, Source, UntilEnd, fill, write_all,
};

const TEXT: [u8; 11] = *b"hello world";

// A caller at the bounds: what it says follows from what the two calls say.
fn copy_once<S: Source, O: Sink>(src: &mut S, out: &mut O, buf: &mut [u8]) -> Result<usize, Failed>
    ensures copied { IfOk result (λ n. (bytes : List ℕ) × (length bytes ≡ n)
        × Takes (S.contents src.old) (S.contents src.new) bytes
        × Appends (O.contents out.old) (O.contents out.new) bytes) }
    ensures end { IfOk result (λ n. n < length buf.old → IsAtEnd (S.contents src.new)) }
    // After a fault too, what was written is a prefix of what was taken.
    ensures part { (bytes : List ℕ) × (length bytes ≤ length buf.old)
        × Takes (S.contents src.old) (S.contents src.new) bytes
        × AppendsPrefix (O.contents out.old) (O.contents out.new) bytes }
    ensures quiet { IsQuiet (S.faults src.old) (S.faults src.new)
        → IsQuiet (O.faults out.old) (O.faults out.new) → IsOk result }
{
    let count = fill(src, buf)?;
    write_all(out, &buf[..count])?;
    Ok(count)
}

// Calls of a copy, and what the buffer holds then.
static COPIES: [(usize, [u8; 8]); 3] = [(8, *b"hello wo"), (3, *b"rldlo wo"), (0, *b"rldlo wo")];

#[test]
fn all_bytes_come_in_pieces(rt: HostRuntime) -> Result<(), Fail> {
    let alloc = rt.alloc();
    for piece in [1, 3, 100] {
        let mut src = MemSource::new(TEXT.to_vec(alloc)?, Vec::new(alloc), piece);
        let mut out = MemSink::new(alloc, Vec::new(alloc), piece);
        let mut buf = [0; 8];
        for row in COPIES.iter() {
            let (count, held) = *row;
            assert!(rt; copy_once(&mut src, &mut out, &mut buf) == Ok(count) && buf == held);
        }
        assert!(rt; out.bytes() == TEXT.as_slice());
        assert!(rt; src.faults() == 0 && out.faults() == 0 && out.starved() == 0);
        // The second fill saw the end, and the third one again.
        assert!(rt; src.ends() == 2);
    }
    Ok(())
}

#[test]
fn an_end_that_was_seen_is_not_seen_again(rt: HostRuntime) -> Result<(), Fail> {
    let alloc = rt.alloc();
    let mut src = MemSource::new(TEXT.to_vec(alloc)?, Vec::new(alloc), 100);
    let mut until_end = UntilEnd::<MemSource, Brand> {
        src: &mut src,
        ended: false,
        begun: PhantomData,
    };
    let mut buf = [0; 8];
    for row in COPIES.iter() {
        let (count, held) = *row;
        assert!(rt; fill(&mut until_end, &mut buf) == Ok(count) && buf == held);
    }
    assert!(rt; until_end.src.ends() == 1);
    Ok(())
}

// Call 1 of a source and of a sink fails. The most bytes of a call, the answers of two fills and what is left
// then, and the answers of two writes and what is written then.
static LISTED: [(
    usize,
    [Result<usize, Failed>; 2],
    &[u8],
    [Result<(), Failed>; 2],
    &[u8],
); 3] = [
    (
        1,
        [Err(Failed), Ok(8)],
        b"ld",
        [Err(Failed), Ok(())],
        b"hhello world",
    ),
    (
        3,
        [Err(Failed), Ok(8)],
        b"",
        [Err(Failed), Ok(())],
        b"helhello world",
    ),
    (
        100,
        [Ok(8), Err(Failed)],
        b"rld",
        [Ok(()), Err(Failed)],
        b"hello world",
    ),
];

// Two fills of eight bytes.
fn fill_twice(src: &mut MemSource) -> [Result<usize, Failed>; 2] {
    let first = fill(src, &mut [0; 8]);
    [first, fill(src, &mut [0; 8])]
}

// Two writes of the text.
fn write_twice(out: &mut MemSink) -> [Result<(), Failed>; 2] {
    let first = write_all(out, &TEXT);
    [first, write_all(out, &TEXT)]
}

#[test]
fn a_listed_call_fails_and_the_next_goes_on(rt: HostRuntime) -> Result<(), Fail> {
    let alloc = rt.alloc();
    for row in LISTED.iter() {
        let (piece, fills, left, writes, written) = *row;
        assert!(rt; piece > 0);
        let mut src = MemSource::new(TEXT.to_vec(alloc)?, [1].to_vec(alloc)?, piece);
        assert!(rt; fill_twice(&mut src) == fills && src.left() == left && src.faults() == 1);
        let mut out = MemSink::new(alloc, [1].to_vec(alloc)?, piece);
        assert!(rt; write_twice(&mut out) == writes && out.bytes() == written);
        assert!(rt; out.faults() == 1 && out.starved() == 0);
    }
    Ok(())
}

// Over streams that expose their bytes the adapters are exact: a reader in memory, and a writer.
fn first_bytes(text: &[u8], buf: &mut [u8]) -> Result<usize, Failed>
    ensures count { IfOk result (λ n. n ≡ min (length buf.old) (length text.now)) }
    ensures bytes { IfOk result (λ n. (rest : List ℕ) × (text.now ≡ take n buf.new ++ rest)) }
{
    fill(&mut RealSource::new(text), buf)
}

fn send(text: &[u8], out: &mut RealSink<Vec<u8>>) -> Result<(), Failed>
    ensures { OnOk result ((sink_stream out.new).items ≡ (sink_stream out.old).items ++ sink_held out.old
        ++ text.now) }
{
    write_all(out, text)?;
    out.flush()
}

// More than one call of the system moves at once.
#[test]
fn long_texts_go_through(rt: HostRuntime) -> Result<(), Fail> {
    let alloc = rt.alloc();
    let text = vec![in alloc; 7; 10_000]?;
    let mut buf = vec![in alloc; 0; 9_000]?;
    assert!(rt; first_bytes(&text, &mut buf) == Ok(9_000));
    assert!(rt; buf.iter().filter(|b| **b == 7).count() == 9_000);
    let mut sink = RealSink::new(Vec::new(alloc));
    assert!(rt; send(&text, &mut sink) == Ok(()) && sink.faults() == 0);
    let mut sink = MemSink::new(alloc, Vec::new(alloc), 20_000);
    assert!(rt; sink.write(&text) == Ok(10_000) && sink.bytes() == text.as_slice());
    Ok(())
}

// A stream of the system's: a signal interrupts its first call, the next moves two bytes, one moves none, and
// then it breaks.
#[derive(Drop)]
struct Stream {
    calls: u64,
}

impl Stream {
    fn count(&mut self) -> io::Result<usize>
        ensures { IfOk result (λ n. n ≤ 2) }
    {
        let call = self.calls;
        self.calls = call.saturating_add(1);
        match call {
            0 => Err(ErrorKind::Interrupted.into()),
            1 => Ok(2),
            2 => Ok(0),
            _ => Err(ErrorKind::Other.into()),
        }
    }
}

impl Read for Stream {
    fn read(&mut self, buf: &mut [u8]) -> io::Result<usize> {
        let count = self.count()?.min(buf.len());
        buf.fill(7);
        Ok(count)
    }
}

impl Write for Stream {
    fn write(&mut self, buf: &[u8]) -> io::Result<usize> {
        Ok(self.count()?.min(buf.len()))
    }

    fn flush(&mut self) -> io::Result<()> {
        Ok(())
    }
}

#[test]
fn system_streams_are_retried_and_their_faults_counted(rt: HostRuntime) {
    let mut src = RealSource::new(Stream { calls: 0 });
    let mut buf = [9; 4];
    for answer in [Ok(2), Ok(0), Err(Failed)] {
        assert!(rt; src.read(&mut buf) == answer);
    }
    assert!(rt; buf == [7, 7, 9, 9] && src.faults() == 1);

    // All bytes are held. The first two are handed on, the second call takes none, and each later one fails.
    let mut out = RealSink::new(Stream { calls: 0 });
    assert!(rt; write_all(&mut out, b"abc") == Ok(()) && out.faults() == 0);
    assert!(rt; out.flush() == Err(Failed) && out.flush() == Err(Failed) && out.faults() == 2);
}
