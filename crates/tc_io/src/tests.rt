use super::*;
use std::io::{self, ErrorKind, Read, Write};
use std::process::Abort;
use std::test::Fail;

/// A source in memory is read whole: its bytes, at most how many a call, the failing calls, the
/// limit, and what is to come of it.
#[test]
fn reads_whole(rt: HostRuntime) -> Result<(), Fail> {
    let rows: [(&[u8], usize, &[u64], usize, Result<&[u8], ReadAllFault>); 9] = [
        (b"abc", 8, &[], 3, Ok(b"abc")),
        (b"abc", 1, &[], 3, Ok(b"abc")),
        (b"abc", 1, &[2], 3, Err(ReadAllFault::Failed)),
        (b"abc", 1, &[4], 3, Err(ReadAllFault::Failed)),
        (b"abc", 2, &[], 2, Err(ReadAllFault::TooLong)),
        (b"", 1, &[], 0, Ok(b"")),
        (b"a", 1, &[], 0, Err(ReadAllFault::TooLong)),
        // No call comes after the first seven, two more than the limit.
        (b"abcdefghi", 1, &[8], 5, Err(ReadAllFault::TooLong)),
        (b"abcde", 1, &[8], 5, Ok(b"abcde")),
    ];
    for (bytes, most, failing, limit, want) in rows {
        assert!(rt; most > 0);
        let bytes = Vec::from_slice(rt.alloc(), bytes)?;
        let failing = Vec::from_slice(rt.alloc(), failing)?;
        let mut source = MemSource::new(bytes, most, failing);
        let read = read_all(rt.alloc(), &mut source, limit);
        assert_same(&rt, &read, &want);
    }
    Ok(())
}

/// Stops the test where a read came out otherwise than it was to.
fn assert_same(
    rt: &impl Abort,
    read: &Result<Vec<u8>, ReadAllFault>,
    want: &Result<&[u8], ReadAllFault>,
) {
    match (read, want) {
        (Ok(read), Ok(want)) => assert!(rt; read.as_slice() == *want),
        (Err(read), Err(want)) => assert!(rt; *read == *want),
        _ => panic!(rt; "another outcome"),
    }
}

/// What was read of a source stays taken: one byte more than the limit where it was too long.
#[test]
fn keeps_the_rest(rt: HostRuntime) -> Result<(), Fail> {
    let bytes = Vec::from_slice(rt.alloc(), b"abcde")?;
    let mut source = MemSource::new(bytes, 4, Vec::new(rt.alloc()));
    let read = read_all(rt.alloc(), &mut source, 1);
    assert_same(&rt, &read, &Err(ReadAllFault::TooLong));
    let read = read_all(rt.alloc(), &mut source, 3);
    assert_same(&rt, &read, &Ok(b"cde"));

    let mut clean = CleanSource::new(Vec::from_slice(rt.alloc(), b"abc")?);
    let mut buf = [b'.'; 2];
    assert_eq!(rt; clean.read(&mut buf), Ok(2));
    assert_eq!(rt; &buf, b"ab");
    assert_eq!(rt; clean.read(&mut buf), Ok(1));
    assert_eq!(rt; &buf, b"cb");
    assert_eq!(rt; clean.read(&mut buf), Ok(0));
    Ok(())
}

/// Bytes are written whole into memory: the sink's room, at most how many bytes a call, the
/// failing calls, the bytes, the outcome, and what the sink then holds.
#[test]
fn writes_whole(rt: HostRuntime) -> Result<(), Fail> {
    let rows: [(usize, usize, &[u64], &[u8], Result<(), Failed>, &[u8]); 7] = [
        (12, 12, &[], b"// t-count 0", Ok(()), b"// t-count 0"),
        (12, 1, &[13], b"// t-count 0", Ok(()), b"// t-count 0"),
        (99, 10, &[2], b"// t-count 0", Err(Failed), b"// t-count"),
        (99, 10, &[1], b"// t-count 0", Err(Failed), b""),
        (11, 10, &[], b"// t-count 0", Err(Failed), b"// t-count "),
        (0, 1, &[], b"", Ok(()), b""),
        (0, 1, &[], b"x", Err(Failed), b""),
    ];
    for (room, most, failing, bytes, want, held) in rows {
        assert!(rt; most > 0);
        let failing = Vec::from_slice(rt.alloc(), failing)?;
        let mut sink = MemSink::new(rt.alloc(), room, most, failing)?;
        assert_eq!(rt; write_all(&mut sink, bytes), want);
        assert!(rt; sink.bytes() == held);
    }
    assert_eq!(rt; CleanSink::new().write(b"abc"), Ok(3));
    assert_eq!(rt; write_all(&mut CleanSink::new(), b"abc"), Ok(()));
    Ok(())
}

// A reader and a writer of std, which fail at the second call.
#[derive(Drop)]
struct Flaky(u8);

impl Flaky {
    /// Counts a call, and fails at the second.
    fn call(&mut self) -> io::Result<()> {
        self.0 = self.0.saturating_add(1);
        if self.0 == 2 {
            return Err(io::Error::from(ErrorKind::TimedOut));
        }
        Ok(())
    }
}

impl Read for Flaky {
    /// Gives one `x` a call.
    fn read(&mut self, buf: &mut [u8]) -> io::Result<usize> {
        self.call()?;
        if buf.is_empty() {
            return Ok(0);
        }
        buf[0] = b'x';
        Ok(1)
    }
}

impl Write for Flaky {
    /// Takes one byte a call.
    fn write(&mut self, buf: &[u8]) -> io::Result<usize> {
        self.call()?;
        Ok(buf.len().min(1))
    }

    /// Has nothing to write out.
    fn flush(&mut self) -> io::Result<()> {
        Ok(())
    }
}

// A writer that takes at most so many bytes a call, and whose flush fails.
#[derive(Drop)]
struct Stuck(usize);

impl Write for Stuck {
    /// Takes at most so many bytes a call.
    fn write(&mut self, buf: &[u8]) -> io::Result<usize> {
        Ok(buf.len().min(self.0))
    }

    /// Fails.
    fn flush(&mut self) -> io::Result<()> {
        Err(io::Error::from(ErrorKind::TimedOut))
    }
}

/// The edge to std hands on what a reader and a writer do.
#[test]
fn reaches_std(rt: HostRuntime) -> Result<(), Fail> {
    let text: &[u8] = b"abc";
    let read = read_all(rt.alloc(), &mut StdSource::new(text), 3);
    assert_same(&rt, &read, &Ok(b"abc"));
    let read = read_all(rt.alloc(), &mut StdSource::new(Flaky(0)), 3);
    assert_same(&rt, &read, &Err(ReadAllFault::Failed));
    let read = read_all(rt.alloc(), &mut StdSource::new(Flaky(2)), 3);
    assert_same(&rt, &read, &Err(ReadAllFault::TooLong));

    let mut held = Vec::new(rt.alloc());
    assert_eq!(rt; write_all(&mut StdSink::new(&mut held), text), Ok(()));
    assert!(rt; held.as_slice() == text);
    assert_eq!(rt; write_all(&mut StdSink::new(Flaky(0)), text), Err(Failed));
    assert_eq!(rt; write_all(&mut StdSink::new(Flaky(2)), text), Ok(()));
    // A flush that fails is a failed write, and so is a write that takes nothing of a piece.
    assert_eq!(rt; write_all(&mut StdSink::new(Stuck(9)), text), Err(Failed));
    assert_eq!(rt; write_all(&mut StdSink::new(Stuck(0)), text), Err(Failed));
    assert_eq!(rt; StdSink::new(Stuck(0)).write(b""), Ok(0));
    Ok(())
}
