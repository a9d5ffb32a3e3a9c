//! What the tests of several crates share: junctions as the text of their files, plans and orders of them, and
//! the conditions of calls as tests. It has no test of its own. Where what is asked for can't be made,
//! as a plan that doesn't fit, the answer is a failed test.
#![tactic(auto)]

pub mod chain;
pub mod crossroads;
pub mod crowd;
pub mod early_start;
pub mod links;
pub mod orders;
pub mod pair;
pub mod plans;
pub mod questions;
pub mod ring;
pub mod sixteen;
pub mod texts;

pub use chain::CHAIN;
pub use crossroads::CROSSROADS;
pub use early_start::EARLY_START;
pub use pair::PAIR;
pub use ring::RING;
pub use sixteen::SIXTEEN;
