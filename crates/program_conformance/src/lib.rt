//! The tests of the program: its words, its top call over a shelf and a sink in memory, its samples, and every way in
//! which a file, the shelf or the sink may fail it. They are made as those of `conformance` are.
#![tactic(auto)]

#[cfg(test)]
mod of_command_words;
#[cfg(test)]
mod of_junction_program;
#[cfg(test)]
mod words;
