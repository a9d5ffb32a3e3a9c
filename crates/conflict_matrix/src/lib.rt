//! Which signal groups of a junction conflict, and how many seconds have to pass between the end of
//! one's green and the start of the other's. Conflicts are kept as a table that is asked in both
//! senses and made from a list of entries; conflicting pairs are numbered by rising groups.
#![tactic(auto)]

mod conflicts;
mod entry;
mod fault;
mod filling;
mod laws;
mod link;
mod linking;
mod numbering;
mod pairing;
mod shortness;
mod sizes;

pub use conflicts::Conflicts;
pub use entry::Entry;
pub use fault::{ConflictFault, LinkFault, Way};
pub use laws::pair_laws;
pub use link::Link;
pub use sizes::{MOST_LINKS, MOST_PAIRS};
