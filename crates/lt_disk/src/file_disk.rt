//! An adapter over the file store.lt of the current folder. It tells neither its bytes nor its images. A read, a write or a
//! sync is one call of the system, or a few where that does it in part. While the file is open it is locked, so that a second
//! process that opens it gets a fault.

ghost use Rattle.std.specs.Prelude.{◌≡◌, None};
ghost use Rattle.lt_world.specs.Disk.{AreBytes};

use crate::disk::Disk;
use crate::fault::DiskFault;
use std::fs::{File, OpenOptions};
use std::io;
use std::io::ErrorKind;
use std::os::unix::fs::FileExt;
use std::rt::Files;

const STORE: &str = "store.lt";

/// What became of the syncs so far.
#[derive(Clone, Copy, Debug)]
struct Synced {
    /// The file's name is on the disk.
    named: bool,
    /// A sync failed.
    failed: bool,
}

/// A disk over the file store.lt, which its first call opens and locks, and makes empty where there is none. An opening that
/// fails, as where another process has the lock or store.lt is no regular file, is that call's fault, and the next call opens
/// again. After a sync that failed each later one fails too, since the system forgets what it could not write.
#[derive(Drop)]
pub struct FileDisk<R> {
    rt: R,
    file: Option<File>,
    synced: Synced,
    faults: u64,
    write_faults: u64,
    reads: u64,
}

impl<R> FileDisk<R> {
    ghost use Rattle.lt_disk.specs.Adapters.{file_disk_faults, file_disk_write_faults, file_disk_reads};

    pub fn new(rt: R) -> FileDisk<R>
        ensures faults { file_disk_faults result ≡ 0 }
        ensures write_faults { file_disk_write_faults result ≡ 0 }
        ensures reads { file_disk_reads result ≡ 0 }
    {
        FileDisk {
            rt,
            file: None,
            synced: Synced {
                named: false,
                failed: false,
            },
            faults: 0,
            write_faults: 0,
            reads: 0,
        }
    }
}

impl<R: Files<File = File>> Disk for FileDisk<R> {
    ghost use Rattle.lt_disk.specs.Adapters.{file_disk_faults, file_disk_write_faults, file_disk_reads};

    ghost state = { λ d. record { told = None; faults = file_disk_faults d; write_faults = file_disk_write_faults d; reads = file_disk_reads d; clock = 0; leaves = AreBytes; left_since = λ _. AreBytes } };

    fn read_at(&mut self, place: u64, buf: &mut [u8]) -> Result<(), DiskFault> {
        self.reads = self.reads.saturating_add(1);
        if read(&self.rt, &mut self.file, place, buf).is_err() {
            self.faults = self.faults.saturating_add(1);
            return Err(DiskFault);
        }
        Ok(())
    }

    #[tactic(auto, using(crate::proofs::Images::any_image_follows))]
    fn write_at(&mut self, place: u64, bytes: &[u8]) -> Result<(), DiskFault> {
        if write(&self.rt, &mut self.file, place, bytes).is_err() {
            self.faults = self.faults.saturating_add(1);
            self.write_faults = self.write_faults.saturating_add(1);
            return Err(DiskFault);
        }
        Ok(())
    }

    fn sync(&mut self) -> Result<(), DiskFault> {
        if sync(&self.rt, &mut self.file, &mut self.synced).is_err() {
            self.faults = self.faults.saturating_add(1);
            self.write_faults = self.write_faults.saturating_add(1);
            return Err(DiskFault);
        }
        Ok(())
    }

    ghost counts_now = { λ _ _ _ _ now. now };

    ghost only_now = { λ _ _ left. left };

    ghost reads_an_image = { λ _. tt };
}

/// The open file. Where it is opened, it is locked.
fn opened<R: Files<File = File>>(rt: &R, file: Option<File>) -> io::Result<File> {
    if let Some(file) = file {
        return Ok(file);
    }
    let file = OpenOptions::new()
        .read(true)
        .write(true)
        .create(true)
        .open(rt, STORE)?;
    // A copy's descriptor is above those of the standard streams, also where the program was started without one of them.
    let file = file.try_clone()?;
    if !file.metadata()?.is_file() {
        return Err(ErrorKind::InvalidInput.into());
    }
    file.try_lock()?;
    Ok(file)
}

fn read<R: Files<File = File>>(
    rt: &R,
    slot: &mut Option<File>,
    place: u64,
    buf: &mut [u8],
) -> io::Result<()> {
    let file = opened(rt, slot.take())?;
    let outcome = fill(&file, place, buf);
    *slot = Some(file);
    outcome
}

fn write<R: Files<File = File>>(
    rt: &R,
    slot: &mut Option<File>,
    place: u64,
    bytes: &[u8],
) -> io::Result<()> {
    let file = opened(rt, slot.take())?;
    let outcome = file.write_all_at(bytes, place);
    *slot = Some(file);
    outcome
}

fn sync<R: Files<File = File>>(
    rt: &R,
    slot: &mut Option<File>,
    synced: &mut Synced,
) -> io::Result<()> {
    let file = opened(rt, slot.take())?;
    let outcome = if synced.failed {
        Err(ErrorKind::Other.into())
    } else {
        sync_named(rt, &file, synced.named)
    };
    synced.named = outcome.is_ok();
    synced.failed = outcome.is_err();
    *slot = Some(file);
    outcome
}

/// Syncs the file, and where its name is not on the disk yet, the folder behind it.
fn sync_named<R: Files<File = File>>(rt: &R, file: &File, named: bool) -> io::Result<()> {
    file.sync_all()?;
    if !named {
        File::open(rt, ".")?.sync_all()?;
    }
    Ok(())
}

/// Fills the buffer from a place on, and with 0 past the end of the file. A place from 2^63 on is refused by the system.
fn fill(file: &File, place: u64, buf: &mut [u8]) -> io::Result<()> {
    let mut at = 0;
    for _ in 0..u64::MAX {
        if at >= buf.len() {
            return Ok(());
        }
        match file.read_at(&mut buf[at..], place.wrapping_add(at as u64)) {
            Ok(0) => {
                buf[at..].fill(0);
                return Ok(());
            }
            Ok(n) => at += n,
            Err(error) if error.kind() == ErrorKind::Interrupted => {}
            Err(error) => return Err(error),
        }
    }
    Err(ErrorKind::Other.into())
}
