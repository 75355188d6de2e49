//! Leaves and cells: values taken apart into primitive parts, as columns are stored.
//!
//! Copying takes time linear in what is copied, and looking at a kept cell constant time.

ghost use Rattle.std.specs.Prelude.{◌≡◌, IfOk};
ghost use Rattle.lt_core.specs.View.{view_cell, view_scalar};

use crate::list::{List, ListItem};
use crate::memory::Memory;
use crate::value::Blob;
use lt_terms::Rank;
use std::alloc::Global;

/// The numbers of the fields that lead to a part of a column, from the outside in.
pub type Path = List<u16>;

/// The leaves of columns.
pub type Layout = List<Leaf>;

/// A cell for each leaf of a layout.
pub type Cells = List<Scalar>;

/// A primitive part of a column. A presence leaf says whether a struct is there.
#[derive(Debug, Drop)]
pub struct Leaf {
    pub column: u16,
    pub path: Path,
    pub rank: Rank,
    pub presence: bool,
}

/// What stands at a leaf, with its bytes borrowed. A text stands here as its bytes.
#[derive(Clone, Copy, Debug)]
pub enum Cell<'a> {
    Unset,
    Null,
    Bool(bool),
    Int(i64),
    Bytes(&'a [u8]),
}

/// What stands at a leaf, with its own bytes. A text stands here as its bytes.
#[derive(Debug, Drop)]
pub enum Scalar {
    Unset,
    Null,
    Bool(bool),
    Int(i64),
    Bytes(Blob),
}

impl Leaf {
    /// A copy equals what it copies.
    pub fn copy(&self) -> Result<Leaf, Memory>
        ensures { IfOk result (λ leaf. leaf ≡ self.now) }
    {
        Ok(Leaf {
            column: self.column,
            path: self.path.copy()?,
            rank: self.rank,
            presence: self.presence,
        })
    }
}

impl Cell<'_> {
    /// The same cell, with bytes of its own.
    pub fn to_scalar(self, alloc: Global) -> Result<Scalar, Memory>
        ensures { IfOk result (λ scalar. view_scalar scalar ≡ view_cell self.entry) }
    {
        match self {
            Cell::Unset => Ok(Scalar::Unset),
            Cell::Null => Ok(Scalar::Null),
            Cell::Bool(truth) => Ok(Scalar::Bool(truth)),
            Cell::Int(number) => Ok(Scalar::Int(number)),
            Cell::Bytes(bytes) => Ok(Scalar::Bytes(List::from_slice(alloc, bytes)?)),
        }
    }
}

impl Scalar {
    /// The same cell, with the bytes borrowed.
    pub fn as_cell(&self) -> Cell<'_>
        ensures { view_cell result ≡ view_scalar self.now }
    {
        match self {
            Scalar::Unset => Cell::Unset,
            Scalar::Null => Cell::Null,
            Scalar::Bool(truth) => Cell::Bool(*truth),
            Scalar::Int(number) => Cell::Int(*number),
            Scalar::Bytes(bytes) => Cell::Bytes(bytes.as_slice()),
        }
    }

    /// A copy equals what it copies.
    pub fn copy(&self) -> Result<Scalar, Memory>
        ensures { IfOk result (λ scalar. scalar ≡ self.now) }
    {
        match self {
            Scalar::Unset => Ok(Scalar::Unset),
            Scalar::Null => Ok(Scalar::Null),
            Scalar::Bool(truth) => Ok(Scalar::Bool(*truth)),
            Scalar::Int(number) => Ok(Scalar::Int(*number)),
            Scalar::Bytes(bytes) => Ok(Scalar::Bytes(bytes.copy()?)),
        }
    }
}

impl ListItem for Leaf {
    fn copy_item(&self) -> Result<Leaf, Memory> {
        self.copy()
    }
}

impl ListItem for Scalar {
    fn copy_item(&self) -> Result<Scalar, Memory> {
        self.copy()
    }
}
