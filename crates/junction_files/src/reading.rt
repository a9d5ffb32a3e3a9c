//! A junction from the bytes of its file: the bytes become a TOML document, this is searched for
//! its first fault, and a document without one is built into a junction. That no fault stands is
//! what every function that builds asks for (`IsFaultless`, and what follows of it for a group, a
//! lane, a conflict and a link). So texts, numbers and groups are there where they are looked up,
//! and what is built keeps the rules of a junction without being tested again.
mod build;
mod conflicts;
mod fields;
mod groups;
mod lanes;
mod links;
mod reader;

pub use reader::read;
