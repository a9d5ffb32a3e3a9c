/// A direction of an entry's pair.
#[derive(Clone, Copy, Debug, PartialEq, Eq)]
pub enum Way {
    AToB,
    BToA,
}

/// Why entries make no conflicts. The number is the entry's index from 0; of `Lonely` it is the group.
#[derive(Clone, Copy, Debug, PartialEq, Eq)]
pub enum ConflictFault {
    /// The entry's two groups are one.
    SelfConflict(u32),
    /// The entry's pair stands in an earlier entry, in either sense.
    Twice(u32),
    /// The group stands in no entry.
    Lonely(u32),
    /// The entry's intergreen in this direction is below the amber of the group that it leaves, or
    /// below the red-amber of the group that it goes to.
    ShortIntergreen(u32, Way),
}

/// Why links are refused. The number is the link's index from 0.
#[derive(Clone, Copy, Debug, PartialEq, Eq)]
pub enum LinkFault {
    /// The link's leader is its follower.
    SelfLink(u32),
    /// The link's two groups stand in an earlier link, in either sense.
    Twice(u32),
}
