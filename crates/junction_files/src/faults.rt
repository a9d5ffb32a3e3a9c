//! The faults of a document. `Stands` is the relation: a rule of a kind is broken at a key of an
//! element. The order is by kind, part, index and key, and a file is refused for its first fault.
//! To find it, `first` tries the kinds in their order, for each the parts, one after another, and
//! there each element and each key: so no fault stands before the one that it meets. `rule` tests
//! one such place, by the file that bears the name of the kind. `NotToml` has none: it says that
//! the bytes are no document.
ghost use Rattle.std.specs.Prelude.{◌≡◌};
ghost use Rattle.junction_files.specs.declared.faults.JunctionFault.TheVariants.{Memory};

mod count;
mod end_gain;
mod first;
mod link_twice;
mod lonely;
mod max_green;
mod name;
mod no_effective;
mod no_flow;
mod range;
mod rule;
mod self_conflict;
mod self_link;
mod shape;
mod short_intergreen;
mod spot;
mod twice;
mod unknown;
mod version;

pub use first::first_fault;
use sig_base::NoMemory;
pub use spot::Spot;

/// Why a junction file is refused, in the order in which faults are looked for: each kind over the
/// whole file before the next.
#[derive(Clone, Copy, Debug, PartialEq, Eq)]
pub enum Kind {
    /// The bytes are no TOML document.
    NotToml,
    /// The version is missing or is neither the whole number 1 nor 2.
    Version,
    /// A required key is missing, a value has another kind than its key asks for, an element isn't a
    /// table, or a table holds a key that isn't listed.
    Shape,
    /// A list has too few or too many elements.
    Count,
    /// A whole number is out of its range.
    Range,
    /// A name breaks its rule or equals an earlier one of the same part.
    Name,
    /// A lane's group, or a group of a conflict or of a link, is the name of no group.
    Unknown,
    /// A conflict's two groups are one.
    SelfConflict,
    /// A conflict's pair stands in an earlier conflict, in either sense.
    Twice,
    /// A group stands in no conflict.
    Lonely,
    /// An intergreen is below the amber of the group that it leaves or below the red-amber of the
    /// group that it goes to.
    ShortIntergreen,
    /// A group's end gain exceeds its amber.
    EndGain,
    /// A group's minimum green has no effective second.
    NoEffective,
    /// Nothing arrives on any lane.
    NoFlow,
    /// A group's maximum green is below its minimum.
    MaxGreen,
    /// A link's leader is its follower.
    SelfLink,
    /// A link's two groups stand in an earlier link, in either sense.
    LinkTwice,
}

/// The part of a file in which a fault stands.
#[derive(Clone, Copy, Debug, PartialEq, Eq)]
pub enum Part {
    Top,
    Group,
    Lane,
    Conflict,
    Link,
}

/// A key of a file, or the whole element, or another key that isn't listed.
#[derive(Clone, Copy, Debug, PartialEq, Eq)]
pub enum Key {
    Whole,
    Other,
    Version,
    Name,
    LeastCycle,
    GreatestCycle,
    Group,
    Lane,
    Conflict,
    Link,
    MinGreen,
    Amber,
    RedAmber,
    StartLost,
    EndGain,
    MaxGreen,
    Arrival,
    Saturation,
    Limit,
    A,
    B,
    AToB,
    BToA,
    Leader,
    Follower,
    After,
}

/// Where a fault stands. The index is 0 for the top and counts from 1 in the lists of groups, lanes,
/// conflicts and links; it stands still at 4294967295.
#[derive(Clone, Copy, Debug, PartialEq, Eq)]
pub struct Place {
    pub part: Part,
    pub index: u32,
    pub key: Key,
}

/// Why no junction was read.
#[derive(Clone, Copy, Debug, PartialEq, Eq)]
pub enum JunctionFault {
    /// The first fault of the file.
    Refused(Kind, Place),
    /// No memory could be had.
    Memory,
}

impl From<NoMemory> for JunctionFault {
    ghost from_gives = { λ _ fault. fault ≡ Memory };

    fn from(_no_memory: NoMemory) -> JunctionFault {
        JunctionFault::Memory
    }
}
