//! Adapters over std's readers and writers. They tell nothing of their content, and pass on what std's contracts say of the
//! bytes that the reader or writer knows.

ghost use Rattle.std.specs.Prelude.{◌≡◌, ◌<◌, ◌≤◌, ℕ, List, None, length, IfOk};
ghost use Rattle.std.specs.Io.KnownBytes.{ReadConsumes, WriteAppends};
ghost use Rattle.lt_world.specs.Disk.{HasCause};
ghost use Rattle.lt_world.specs.Object.{KeepsFirstFault, StaysTold};

use crate::faults::{ReadFault, WriteFault};
use crate::sink::Sink;
use crate::source::Source;
use std::io::{ErrorKind, Read, Write};
use std::thread;
use std::time::{Clock, Duration};

/// How often a call that would block is made again. With the pauses between them that takes a little less than a second.
const MOST_PAUSES: u32 = 180;

/// How many milliseconds pass before a call that would block is made again.
const PAUSE: u64 = 5;

/// A source over a reader. A read that was interrupted is made again. One that would block is made again for about a second,
/// and is a fault from then on.
#[derive(Debug, Drop)]
pub struct StdSource<R, C> {
    inner: R,
    clock: C,
    faults: u64,
}

impl<R, C> StdSource<R, C> {
    ghost use Rattle.lt_io.specs.Adapters.{std_source_faults, std_source_inner};

    pub fn new(clock: C, inner: R) -> StdSource<R, C>
        ensures faults { std_source_faults result ≡ 0 }
        ensures inner { std_source_inner result ≡ inner }
    {
        StdSource {
            inner,
            clock,
            faults: 0,
        }
    }
}

impl<R: Read, C: Clock> Source for StdSource<R, C> {
    ghost use Rattle.lt_io.specs.Adapters.{std_source_faults, std_source_inner};

    ghost state = { λ s. record { told = None; faults = s.faults; failed_at = None } };

    fn read(&mut self, buf: &mut [u8]) -> Result<usize, ReadFault>
        requires { 0 < length buf.old }
        ensures bound { IfOk result (λ n. n ≤ length buf.new) }
        ensures bytes { ReadConsumes None None result buf.new }
        ensures stays { StaysTold {A = List ℕ} None None }
        ensures cause { HasCause (std_source_faults self.old) (std_source_faults self.new) result }
        ensures first_fault { KeepsFirstFault None None None result }
        ensures passes { ReadConsumes (R.remaining (std_source_inner self.old))
            (R.remaining (std_source_inner self.new)) result buf.new }
    {
        let answer = read_some(&self.clock, &mut self.inner, buf);
        if answer.is_err() {
            self.faults = self.faults.saturating_add(1);
        }
        answer
    }
}

/// One read, made again where it was interrupted, and for a while where it would block.
#[tactic(auto, using(crate::proofs::Known::keeps_itself, crate::proofs::Known::kept_twice, crate::proofs::Known::kept_then_consumed))]
fn read_some<R: Read, C: Clock>(
    clock: &C,
    inner: &mut R,
    buf: &mut [u8],
) -> Result<usize, ReadFault>
    ensures bound { IfOk result (λ n. n ≤ length buf.new) }
    ensures bytes { ReadConsumes (R.remaining inner.old) (R.remaining inner.new) result buf.new }
{
    let mut pauses = 0u32;
    for _ in 0..u64::MAX {
        match inner.read(buf) {
            Ok(n) => return Ok(n),
            Err(error) if error.kind() == ErrorKind::Interrupted => {}
            Err(error) if error.kind() == ErrorKind::WouldBlock && pauses < MOST_PAUSES => {
                pauses += 1;
                thread::sleep(clock, Duration::from_millis(PAUSE));
            }
            Err(_) => return Err(ReadFault),
        }
    }
    Err(ReadFault)
}

/// A sink over a writer. A write that was interrupted is made again. One that would block is made again for about a second,
/// and is a fault from then on. A writer that takes nothing has failed. A writer that keeps bytes back may fail unseen.
#[derive(Debug, Drop)]
pub struct StdSink<W, C> {
    inner: W,
    clock: C,
    faults: u64,
}

impl<W, C> StdSink<W, C> {
    ghost use Rattle.lt_io.specs.Adapters.{std_sink_faults, std_sink_inner};

    pub fn new(clock: C, inner: W) -> StdSink<W, C>
        ensures faults { std_sink_faults result ≡ 0 }
        ensures inner { std_sink_inner result ≡ inner }
    {
        StdSink {
            inner,
            clock,
            faults: 0,
        }
    }
}

impl<W: Write, C: Clock> Sink for StdSink<W, C> {
    ghost use Rattle.lt_io.specs.Adapters.{std_sink_faults, std_sink_inner};

    ghost state = { λ s. record { told = None; faults = s.faults; failed_at = None } };

    fn write(&mut self, bytes: &[u8]) -> Result<usize, WriteFault>
        requires { 0 < length bytes.now }
        ensures bound { IfOk result (λ n. (0 < n) × (n ≤ length bytes.now)) }
        ensures bytes { WriteAppends None None result bytes.now }
        ensures stays { StaysTold {A = List ℕ} None None }
        ensures cause { HasCause (std_sink_faults self.old) (std_sink_faults self.new) result }
        ensures first_fault { KeepsFirstFault None None None result }
        ensures passes { WriteAppends (W.contents (std_sink_inner self.old)) (W.contents (std_sink_inner self.new))
            result bytes.now }
    {
        let answer = write_some(&self.clock, &mut self.inner, bytes);
        if answer.is_err() {
            self.faults = self.faults.saturating_add(1);
        }
        answer
    }
}

/// One write, made again where it was interrupted, and for a while where it would block. A writer that takes nothing has
/// failed.
#[tactic(auto, using(crate::proofs::Known::keeps_itself, crate::proofs::Known::kept_twice, crate::proofs::Known::kept_then_appended, crate::proofs::Known::none_appended))]
fn write_some<W: Write, C: Clock>(
    clock: &C,
    inner: &mut W,
    bytes: &[u8],
) -> Result<usize, WriteFault>
    ensures bound { IfOk result (λ n. (0 < n) × (n ≤ length bytes.now)) }
    ensures bytes { WriteAppends (W.contents inner.old) (W.contents inner.new) result bytes.now }
{
    let mut pauses = 0u32;
    for _ in 0..u64::MAX {
        match inner.write(bytes) {
            Ok(0) => return Err(WriteFault),
            Ok(n) => return Ok(n),
            Err(error) if error.kind() == ErrorKind::Interrupted => {}
            Err(error) if error.kind() == ErrorKind::WouldBlock && pauses < MOST_PAUSES => {
                pauses += 1;
                thread::sleep(clock, Duration::from_millis(PAUSE));
            }
            Err(_) => return Err(WriteFault),
        }
    }
    Err(WriteFault)
}
