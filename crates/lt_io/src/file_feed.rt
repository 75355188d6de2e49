//! An adapter over files: the streams of a feed are the files feed.0, feed.1, .. of the current folder. It tells nothing of
//! their content. Each file is opened once, and a read is one call of the system. What stands under such a name and is no
//! regular file is a fault of the call that finds it.

ghost use Rattle.std.specs.Prelude.{◌≡◌, ◌+◌, ◌^◌, ◌<◌, ◌≤◌, None, length, IfSome};

use crate::faults::FeedFault;
use crate::feed::Feed;
use std::fs::File;
use std::io::ErrorKind;
use std::os::unix::fs::FileExt;
use std::rt::Files;
use std::{fs, io};

/// How many files are looked at: one more than any store has streams.
const MOST_FILES: usize = 257;

/// How many bytes a stream has at most.
const LONGEST: u64 = i64::MAX as u64;

/// A feed over the files feed.0, feed.1, .. of the current folder, up to the first that is missing. A file once seen counts
/// from then on.
#[derive(Drop)]
pub struct FileFeed<R> {
    rt: R,
    files: Vec<File>,
    faults: u64,
    calls: u64,
    ghost few: { length files.items ≤ 257 },
}

impl<R: AllocGlobal> FileFeed<R> {
    ghost use Rattle.lt_io.specs.Adapters.{file_feed_known, file_feed_faults, file_feed_calls};

    /// A feed whose files are looked for by its calls.
    pub fn new(rt: R) -> FileFeed<R>
        ensures known { file_feed_known result ≡ 0 }
        ensures faults { file_feed_faults result ≡ 0 }
        ensures calls { file_feed_calls result ≡ 0 }
    {
        let files = Vec::new(rt.alloc());
        FileFeed {
            rt,
            files,
            faults: 0,
            calls: 0,
        }
    }
}

impl<R: Files<File = File> + AllocGlobal> Feed for FileFeed<R> {
    ghost use Rattle.lt_io.specs.Adapters.{file_feed_known, file_feed_faults, file_feed_calls};

    ghost state = { λ f. record { told = None; known = file_feed_known f; faults = file_feed_faults f; calls = file_feed_calls f } };

    fn streams(&mut self) -> Result<u32, FeedFault> {
        self.calls = self.calls.saturating_add(1);
        if open_further(&self.rt, &mut self.files).is_err() {
            self.faults = self.faults.saturating_add(1);
            return Err(FeedFault);
        }
        Ok(self.files.len() as u32)
    }

    fn read_at(&mut self, stream: u32, offset: u64, buf: &mut [u8]) -> Result<usize, FeedFault> {
        self.calls = self.calls.saturating_add(1);
        let Some(n) = read_some_at(&self.files[stream as usize], offset, buf) else {
            self.faults = self.faults.saturating_add(1);
            return Err(FeedFault);
        };
        Ok(n)
    }

    ghost as_many = { λ _. tt };

    ghost short = { λ _. tt };
}

/// Opens further files, up to the first that is missing.
fn open_further<R: Files<File = File> + AllocGlobal>(
    rt: &R,
    files: &mut Vec<File>,
) -> io::Result<()>
    requires { length files.old.items ≤ 257 }
    ensures more { length files.old.items ≤ length files.new.items }
    ensures few { length files.new.items ≤ 257 }
{
    for number in files.len()..MOST_FILES {
        let Some(file) = open_stream(rt, number)? else {
            break;
        };
        files.push(file)?;
    }
    Ok(())
}

/// The file of a stream; none where it is missing.
fn open_stream<R: Files<File = File> + AllocGlobal>(
    rt: &R,
    number: usize,
) -> io::Result<Option<File>> {
    let name = format!(in rt.alloc(); "feed.{number}")?;
    match open_regular(rt, &name) {
        Ok(file) => Ok(Some(file)),
        Err(error) if error.kind() == ErrorKind::NotFound => Ok(None),
        Err(error) => Err(error),
    }
}

/// Opens a regular file, and refuses any other kind. It looks at the name first, since the opening of a pipe waits for a
/// writer; a name that becomes a pipe between the two calls still waits.
fn open_regular<R: Files<File = File>>(rt: &R, name: &str) -> io::Result<File> {
    if !fs::metadata(rt, name)?.is_file() {
        return Err(ErrorKind::InvalidInput.into());
    }
    // A copy's descriptor is above those of the standard streams, also where the program was started without one of them.
    let file = File::open(rt, name)?.try_clone()?;
    if !file.metadata()?.is_file() {
        return Err(ErrorKind::InvalidInput.into());
    }
    Ok(file)
}

/// One read of a file, made again where it was interrupted. It gives nothing past the greatest length of a stream. None where
/// it failed.
fn read_some_at(file: &File, offset: u64, buf: &mut [u8]) -> Option<usize>
    ensures bound { IfSome result (λ n. n ≤ length buf.new) }
    ensures place { IfSome result (λ n. 0 < n → offset + n < 2 ^ 63) }
{
    let room = buf.len().min(LONGEST.saturating_sub(offset) as usize);
    if room == 0 {
        return Some(0);
    }
    for _ in 0..u64::MAX {
        match file.read_at(&mut buf[..room], offset) {
            Ok(n) => return Some(n),
            Err(error) if error.kind() == ErrorKind::Interrupted => {}
            Err(_) => return None,
        }
    }
    None
}
