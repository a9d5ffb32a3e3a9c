//! What is written: the file of a junction, as a TOML document whose members stand in the order of
//! their keys, and the line that says why a file was refused. A printed file reads back as the
//! same junction, since no rule is broken at any place of its document, and each element of it
//! means what it was printed from.
mod line;
mod member;
mod printer;
mod tables;
mod version;

pub use line::fault_line;
pub use printer::print;
