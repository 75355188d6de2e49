//! Schema versions as JSON texts: reading and writing them.
//!
//! A schema text is what `serde_json` reads as a `Value`, an object with the members that `lt_words` states. A text that is none
//! has one fault, the first in the order of the format. What is written stands compactly, with the members of each object in byte
//! order of their names, and reads back.
//!
//! Both directions take time linear in the text, but for the look-up of a member by its name, which grows with the logarithm
//! of the number of members beside it. The recursion goes as deep as kinds and defaults nest: `serde_json` reads no text with more
//! than 127 nested arrays and objects, so no text makes it deep.
#![tactic(auto)]

mod reading;
mod refusal;
mod writing;

pub use lt_terms::Field;
pub use reading::read_version;
pub use refusal::JsonRefusal;
pub use writing::{value_json, write_version};
