//! The objects in memory with calls that fail, and each adapter once.

ghost use Rattle.std.specs.Prelude.{◌<◌, length};

use lt_core::{Blob, List, Memory};
use lt_io::{
    Feed, FeedFault, FileFeed, MemFeed, MemSink, MemSource, ReadFault, Sink, Source, StdSink,
    StdSource, WriteFault,
};
use std::io::{ErrorKind, Read, Write};
use std::test::Fail;
use std::{fs, io};

fn blob(rt: HostRuntime, bytes: &[u8]) -> Result<Blob, Memory> {
    List::from_slice(rt.alloc(), bytes)
}

/// Whether a read into two bytes gives these, or fails where `!` is wanted.
fn gives<S: Source>(source: &mut S, want: &[u8]) -> bool {
    let mut buf = [0u8; 2];
    match source.read(&mut buf) {
        Ok(n) => &buf[..n] == want,
        Err(ReadFault) => want == b"!".as_slice(),
    }
}

#[test]
fn a_source_fails_at_the_listed_calls_and_loses_nothing(rt: HostRuntime) -> Result<(), Fail> {
    let mut source = MemSource::new(blob(rt, b"abcde")?);
    source.fail(&[2, 5])?;
    let answers: [&[u8]; 7] = [b"ab", b"!", b"cd", b"e", b"!", b"", b""];
    for (call, want) in answers.iter().enumerate() {
        assert!(rt; gives(&mut source, want), "at call {call}");
    }
    Ok(())
}

/// Whether so many of two bytes are taken, or a fault is answered where none is wanted.
fn takes<S: Sink>(sink: &mut S, want: Option<usize>) -> bool {
    sink.write(b"ab").ok() == want
}

#[test]
fn a_sink_holds_what_it_took(rt: HostRuntime) -> Result<(), Fail> {
    let mut sink = MemSink::new(rt.alloc());
    sink.fail(&[1])?;
    sink.fail(&[3])?;
    for (call, want) in [None, Some(2), None, Some(2)].iter().enumerate() {
        assert!(rt; takes(&mut sink, *want), "at call {call}");
    }
    assert!(rt; sink.bytes() == b"abab".as_slice() && sink.lacks() == 0);
    Ok(())
}

/// Whether there are two streams, and a read of one from an offset gives these bytes; or a call fails where `!` is wanted.
fn reads<F: Feed>(feed: &mut F, stream: u32, offset: u64, buf: &mut [u8], want: &[u8]) -> bool
    requires { 0 < length buf.old }
{
    match feed.streams() {
        Ok(2) if stream < 2 => match feed.read_at(stream, offset, buf) {
            Ok(n) => &buf[..n] == want,
            Err(FeedFault) => want == b"!".as_slice(),
        },
        Ok(_) => false,
        Err(FeedFault) => want == b"!".as_slice(),
    }
}

/// Two streams, of which the second grew twice, and calls that fail.
fn grown(rt: HostRuntime) -> Result<MemFeed, Memory> {
    let mut feed = MemFeed::new(rt.alloc());
    feed.add_stream(blob(rt, b"abc")?)?;
    feed.add_stream(blob(rt, b"")?)?;
    feed.append(1, b"xy")?;
    feed.append(1, b"z")?;
    // Each turn makes two calls.
    feed.fail(&[4, 5])?;
    Ok(feed)
}

#[test]
fn a_feed_gives_its_streams_as_they_stand(rt: HostRuntime) -> Result<(), Fail> {
    let mut feed = grown(rt)?;
    let rows: [(u32, u64, &[u8]); 5] = [
        (0, 1, b"bc"),
        (0, 0, b"!"),
        (1, 0, b"!"),
        (1, 0, b"xy"),
        (1, 3, b""),
    ];
    let mut buf = [0u8; 2];
    for (stream, offset, want) in rows {
        let given = reads(&mut feed, stream, offset, &mut buf, want);
        assert!(rt; given, "of stream {stream} from {offset}");
    }
    Ok(())
}

/// A device that is interrupted and would block at first, then gives or takes one byte, then none, then one more, and then fails.
#[derive(Drop)]
struct Weak {
    calls: u8,
}

impl Weak {
    fn next(&mut self) -> io::Result<usize> {
        self.calls = self.calls.saturating_add(1);
        match self.calls {
            1 => Err(ErrorKind::Interrupted.into()),
            2 => Err(ErrorKind::WouldBlock.into()),
            3 | 5 => Ok(1),
            4 => Ok(0),
            _ => Err(ErrorKind::Other.into()),
        }
    }
}

impl Read for Weak {
    fn read(&mut self, buf: &mut [u8]) -> io::Result<usize> {
        let n = self.next()?.min(buf.len());
        buf[..n].fill(b'a');
        Ok(n)
    }
}

impl Write for Weak {
    fn write(&mut self, buf: &[u8]) -> io::Result<usize> {
        Ok(self.next()?.min(buf.len()))
    }

    fn flush(&mut self) -> io::Result<()> {
        Ok(())
    }
}

#[test]
fn a_reader_is_read_to_its_end(rt: HostRuntime) {
    let mut source = StdSource::new(rt, Weak { calls: 0 });
    let answers: [&[u8]; 4] = [b"a", b"", b"a", b"!"];
    for (call, want) in answers.iter().enumerate() {
        assert!(rt; gives(&mut source, want), "at call {call}");
    }
}

#[test]
fn a_writer_that_takes_nothing_has_failed(rt: HostRuntime) {
    let mut sink = StdSink::new(rt, Weak { calls: 0 });
    for (call, want) in [Some(1), None, Some(1), None].iter().enumerate() {
        assert!(rt; takes(&mut sink, *want), "at call {call}");
    }
}

const FILES: [(&str, &[u8]); 3] = [
    ("feed.0", b"abcdef"),
    ("feed.1", b"xy"),
    ("feed.3", b"behind a missing one"),
];

#[test]
fn files_are_streams_up_to_the_first_that_is_missing(rt: HostRuntime) -> Result<(), Fail> {
    for (name, bytes) in FILES {
        fs::write(&rt, name, bytes)?;
    }
    let mut feed = FileFeed::new(rt);
    assert!(rt; matches!(feed.streams(), Ok(2)));
    let rows: [(u32, u64, &[u8]); 5] = [
        (0, 0, b"abcd"),
        (0, 4, b"ef"),
        (1, 0, b"xy"),
        (1, 2, b""),
        (1, u64::MAX, b""),
    ];
    let mut buf = [0u8; 4];
    for (stream, offset, want) in rows {
        let given = reads(&mut feed, stream, offset, &mut buf, want);
        assert!(rt; given, "of stream {stream} from {offset}");
    }
    fs::create_dir(&rt, "feed.2")?;
    assert!(rt; feed.streams().is_err());
    fs::remove_dir(&rt, "feed.2")?;
    assert!(rt; matches!(feed.streams(), Ok(2)));
    for (name, _) in FILES {
        fs::remove_file(&rt, name)?;
    }
    Ok(())
}
