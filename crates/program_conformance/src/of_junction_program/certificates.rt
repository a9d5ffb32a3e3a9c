//! Certificates in their text.

/// The best plan of the pair, and the tree that excludes a better one.
pub const BEST: &str =
    "{\"branches\":[[[0,1]]],\"budget\":200000,\"claim\":\"capacity\",\"least\":[1,1],\"plan\":{\"cycle\":60,\"greens\":[25,25],\"starts\":[0,30]},\"version\":1}";

/// The shortest cycle of the ring, whose plan the second node gives: greens of 10 from 0, 13 and 26 on.
pub const SHORTEST: &str =
    "{\"branches\":[],\"budget\":2,\"claim\":\"cycle\",\"least\":[1,1],\"plan\":{\"cycle\":39,\"greens\":[10,10,10],\"starts\":[0,13,26]},\"version\":1}";

/// Group B of the pair is green from second 40 to second 1 of the next cycle.
pub const CLASHING: &str =
    "{\"branches\":[],\"budget\":1,\"claim\":\"cycle\",\"least\":[1,1],\"plan\":{\"cycle\":60,\"greens\":[30,22],\"starts\":[1,40]},\"version\":1}";

/// No plan of the pair carries twice its flows.
pub const NO_PLAN: &str =
    "{\"branches\":[[[0,1]]],\"budget\":200000,\"claim\":\"infeasible\",\"least\":[2,1],\"plan\":null,\"version\":1}";

/// What is no certificate.
pub const OLD: &str = "the old bytes";
