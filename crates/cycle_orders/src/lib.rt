//! The search of all orders at one cycle, by branch and bound: it finds a plan that meets a target, or the best one, or a
//! tree which shows that there is none.
//!
//! An order that no starts meet excludes every plan that meets it, and so do all orders below it; one that some starts
//! meet is split at its due item. The due items are always the same ones in the same order: the pairs by their second
//! group and then the first one, and behind them the links. So the first groups are in order among each other before the
//! next one is looked at, and contradictions show early. A search is a session that can be cut between any two nodes.
//!
//! A tree that closes a cycle for a target may split more than it has to: `trim` closes what can be closed.
#![tactic(auto)]

mod answer;
mod items;
mod joined;
mod junction_answer;
mod laws;
mod needs;
mod order_search;
mod place;
mod question;
mod raising;
mod session;
mod trimming;
mod visit;

pub use answer::{CycleAnswer, Mode, Progress};
pub use joined::joined_law;
pub use junction_answer::Answer;
pub use laws::advances_law;
pub use order_search::search;
pub use session::Session;
pub use trimming::trim;
