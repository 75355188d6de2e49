//! The plain types of the store: lists, texts, values, kinds, keys with their bytes, ranges, leaves and cells.
//!
//! Contracts see a list as the list of its items, a text as its bytes, and every other type by its view in `specs/View`.
//! What allocates answers `Memory` where none is left. Each call takes at most time linear in what it reads and makes.
#![tactic(auto)]

mod key;
mod kind;
mod leaf;
mod list;
mod memory;
mod reader;
mod text;
mod value;
mod writer;

pub use key::{
    DecodeRefusal, Key, KeyBytes, KeyKinds, KeyPart, KeyParts, KeyRefusal, MAX_KEY, Range,
    decode_key, encode_key, encode_prefix,
};
pub use kind::{FieldKinds, Kind, Names};
pub use leaf::{Cell, Cells, Layout, Leaf, Path, Scalar};
pub use list::{List, ListItem};
pub use lt_terms::{KeyKind, Op, Rank};
pub use memory::Memory;
pub use reader::{Reader, Short};
pub use text::{NotUtf8, Text, TextRefusal};
pub use value::{Blob, Fields, Row, Settings, Value};
pub use writer::Writer;

/// A timestamp: changes and checkpoints have one from 1 to 2^63 - 1, and 0 is before all of them.
pub type Ts = u64;

/// Numbers of deltas.
pub type Ids = List<u64>;
