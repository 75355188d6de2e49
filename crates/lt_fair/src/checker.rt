//! The check of a stream.

ghost use Rattle.std.specs.Prelude.{◌≡◌, ◌++◌, ◌∷◌, [], false, List, IfOk, nat_lt, OnErr, OnOk};
ghost use Rattle.lt_terms.specs.Log.{Item, change_key};
ghost use Rattle.lt_tables.specs.Schema as schema;
ghost use Rattle.lt_tables.specs.Schema.{when};
ghost use Rattle.lt_tables.specs.Fair.{breaks, breaks_at, backward, change_fault_at, item_fault_at, point_after, point_of, window_ts, with_change};
ghost use Rattle.lt_records.specs.View.{view_change, view_header, view_item};
ghost use Rattle.lt_fair.specs.Faults.{Answers, Finds, HasTaken, shape_fault, time_fault};
ghost use Rattle.lt_fair.specs.View.{header_of, point_in, view_kept, view_point};

use crate::point::Point;
use crate::refusal::{TakeRefusal, Unfair};
use crate::shape::fits_version;
use crate::version::version_of;
use crate::window::Kept;
use lt_core::{KeyBytes, Memory, Ts, encode_prefix};
use lt_records::{ChangeRecord, LogRecord, StreamHeader};
use lt_schema::Catalogue;

/// The check of one stream: its header, and what is kept of the records that were taken.
#[derive(Debug, Drop)]
pub struct Checker {
    header: StreamHeader,
    checkpoint: Ts,
    greatest: Ts,
    window: Kept,
}

impl Checker {
    /// The check of a stream of which nothing was taken.
    pub fn new(header: StreamHeader) -> Checker
        ensures header { header_of result ≡ view_header header }
        ensures point { point_in result ≡ point_of (header_of result) [] }
        ensures taken { (cat : schema.Catalogue) → HasTaken (header_of result) cat (point_in result) [] }
    {
        let window = Kept::new(header.range.low.allocator());
        Checker {
            header,
            checkpoint: 0,
            greatest: 0,
            window,
        }
    }

    /// The check that goes on from a point, whichever it is.
    pub fn at(header: StreamHeader, point: Point) -> Checker
        ensures header { header_of result ≡ view_header header }
        ensures point { point_in result ≡ view_point point }
    {
        Checker {
            header,
            checkpoint: point.checkpoint,
            greatest: point.greatest,
            window: Kept::Listed(point.window.into_vec()),
        }
    }

    /// Goes on from a point, whichever it is.
    pub fn go_on_at(&mut self, point: Point)
        ensures header { header_of self.new ≡ header_of self.old }
        ensures point { point_in self.new ≡ view_point point }
    {
        self.checkpoint = point.checkpoint;
        self.greatest = point.greatest;
        self.window = Kept::Listed(point.window.into_vec());
    }

    /// The last checkpoint, or where the stream begins.
    pub fn checkpoint(&self) -> Ts
        ensures { result ≡ (point_in self.now).checkpoint }
    {
        self.checkpoint
    }

    /// What `take` would answer.
    pub fn test(&self, cat: &Catalogue, item: &LogRecord) -> Result<(), TakeRefusal>
        ensures by_point { Answers (breaks_at (header_of self.now) cat.now false (point_in self.now)
            (view_item item.now)) result }
        ensures by_list { (items : List Item) → HasTaken (header_of self.now) cat.now (point_in self.now) items
            → Answers (breaks (header_of self.now) cat.now items (view_item item.now)) result }
    {
        self.answer(cat, item)
    }

    /// Takes a record that breaks no rule of a fair stream. An `Err` changes nothing.
    pub fn take(&mut self, cat: &Catalogue, item: &LogRecord) -> Result<(), TakeRefusal>
        ensures header { header_of self.new ≡ header_of self.old }

        // The answer, by what is kept and by the items that were taken.
        ensures by_point { Answers (breaks_at (header_of self.old) cat.now false (point_in self.old)
            (view_item item.now)) result }
        ensures by_list { (items : List Item) → HasTaken (header_of self.old) cat.now (point_in self.old) items
            → Answers (breaks (header_of self.old) cat.now items (view_item item.now)) result }

        // What is kept then.
        ensures next { OnOk result (point_in self.new ≡ point_after (point_in self.old) (view_item item.now)) }
        ensures taken { (items : List Item) → HasTaken (header_of self.old) cat.now (point_in self.old) items
            → OnOk result (HasTaken (header_of self.new) cat.now (point_in self.new)
            (items ++ view_item item.now ∷ [])) }
        ensures refused { OnErr result (point_in self.new ≡ point_in self.old) }
    {
        self.step(cat, item)
    }

    /// What is kept, as a copy.
    pub fn point(&self) -> Result<Point, Memory>
        ensures { IfOk result (λ point. view_point point ≡ point_in self.now) }
    {
        Ok(Point {
            checkpoint: self.checkpoint,
            greatest: self.greatest,
            window: self.window.to_window(self.header.range.low.allocator())?,
        })
    }

    /// What is answered, by what is kept.
    fn answer(&self, cat: &Catalogue, item: &LogRecord) -> Result<(), TakeRefusal>
        ensures { Answers (item_fault_at (header_of self.now) cat.now (point_in self.now) (view_item item.now)) result }
    {
        match item {
            LogRecord::Header(_) => Err(TakeRefusal::Unfair(Unfair::SecondHeader)),
            LogRecord::Change(change) => self.test_change(cat, change),
            LogRecord::Checkpoint(at) => Ok(self.test_checkpoint(*at)?),
        }
    }

    /// Takes a record, by what is kept.
    fn step(&mut self, cat: &Catalogue, item: &LogRecord) -> Result<(), TakeRefusal>
        ensures header { header_of self.new ≡ header_of self.old }
        ensures answer { Answers (item_fault_at (header_of self.old) cat.now (point_in self.old)
            (view_item item.now)) result }
        ensures next { OnOk result (point_in self.new ≡ point_after (point_in self.old) (view_item item.now)) }
        ensures refused { OnErr result (point_in self.new ≡ point_in self.old) }
    {
        match item {
            LogRecord::Header(_) => Err(TakeRefusal::Unfair(Unfair::SecondHeader)),
            LogRecord::Change(change) => self.take_change(cat, change),
            LogRecord::Checkpoint(at) => {
                self.test_checkpoint(*at)?;
                self.checkpoint = *at;
                self.window.keep_above(*at);
                Ok(())
            }
        }
    }

    fn take_change(&mut self, cat: &Catalogue, change: &ChangeRecord) -> Result<(), TakeRefusal>
        ensures header { header_of self.new ≡ header_of self.old }
        ensures answer { Answers (change_fault_at (header_of self.old) cat.now (point_in self.old)
            (view_change change.now)) result }
        ensures next { OnOk result (point_in self.new ≡ with_change (point_in self.old) (view_change change.now)) }
        ensures refused { OnErr result (point_in self.new ≡ point_in self.old) }
    {
        let key = self.key_of(cat, change)?;
        self.window.put(key, change.ts)?;
        self.greatest = self.greatest.max(change.ts);
        Ok(())
    }

    fn test_change(&self, cat: &Catalogue, change: &ChangeRecord) -> Result<(), TakeRefusal>
        ensures { Answers (change_fault_at (header_of self.now) cat.now (point_in self.now) (view_change change.now))
            result }
    {
        self.key_of(cat, change)?;
        Ok(())
    }

    /// The key of a fair change.
    fn key_of(&self, cat: &Catalogue, change: &ChangeRecord) -> Result<KeyBytes, TakeRefusal>
        ensures answer { Answers (change_fault_at (header_of self.now) cat.now (point_in self.now)
            (view_change change.now)) result }
        ensures key { IfOk result (λ key. key ≡ change_key (view_change change.now)) }
    {
        let alloc = self.header.range.low.allocator();
        let key = encode_prefix(alloc, change.table, &change.key)?;
        self.test_keyed(cat, change, &key)?;
        Ok(key)
    }

    /// Tests a change with its key.
    fn test_keyed(
        &self,
        cat: &Catalogue,
        change: &ChangeRecord,
        key: &KeyBytes,
    ) -> Result<(), Unfair>
        requires { key.now ≡ change_key (view_change change.now) }
        ensures { Finds (change_fault_at (header_of self.now) cat.now (point_in self.now) (view_change change.now))
            result }
    {
        if !self.header.range.contains(key.as_slice()) {
            return Err(Unfair::Range);
        }
        test_shape(cat, change)?;
        self.test_time(key, change.ts)
    }

    /// Tests a change's timestamp against the checkpoint, and against the last change of its key.
    fn test_time(&self, key: &KeyBytes, ts: Ts) -> Result<(), Unfair>
        ensures { Finds (time_fault ts self.now.checkpoint (window_ts key.now (view_kept self.now.window))) result }
    {
        if ts <= self.checkpoint {
            return Err(Unfair::Late {
                checkpoint: self.checkpoint,
            });
        }
        let last = self.window.last_of(key);
        if ts <= last {
            return Err(Unfair::Order { last });
        }
        Ok(())
    }

    fn test_checkpoint(&self, at: Ts) -> Result<(), Unfair>
        ensures { Finds (when (nat_lt at self.now.checkpoint) (backward self.now.checkpoint)) result }
    {
        if at < self.checkpoint {
            return Err(Unfair::Backward {
                checkpoint: self.checkpoint,
            });
        }
        Ok(())
    }
}

/// Tests a change against its version.
fn test_shape(cat: &Catalogue, change: &ChangeRecord) -> Result<(), Unfair>
    ensures { Finds (shape_fault cat.now (view_change change.now)) result }
{
    let version = version_of(cat, change.table, change.version)?;
    if !fits_version(version, change) {
        return Err(Unfair::Shape);
    }
    Ok(())
}
