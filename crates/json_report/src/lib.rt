//! The answer of a check as data in JSON, for tools that keep answers, and the digests that bind an answer to its inputs.
//!
//! Promises: the text of an answer is JSON in the layout of `serde_json`, and a line feed. The tokens of the JSON are those of one value,
//! each once and in order. The value has each part of the answer once and each list in its order, and the digest of the line with its line
//! feed. A digest is the SHA-256 of FIPS 180-4, in hexadecimal digits, of a whole text, or of all bytes that a reader has left.
//!
//! No clause says that an answer is that of the check. The crate knows no check: `check_result` passes it an `Answer` (`json.rt`) and writes
//! the text. The check has its answer before. The text decides nothing.
#![tactic(auto)]

mod answer;
mod digest;
mod object;
mod text;
mod values;

pub use answer::{
    Answer, Digest, Input, LastRecord, NamedPlace, Options, Row, Sentence, Site, Summary,
};
pub use digest::{digest_of, sha256_of};
pub use text::answer_text;
