//! Certificates with a plan.

/// Both groups are green for 25 of 60 seconds.
pub const EVEN: &str =
    "{\"branches\":[[[0,1]]],\"budget\":200000,\"claim\":\"capacity\",\"least\":[1,1],\"plan\":{\"cycle\":60,\"greens\":[25,25],\"starts\":[0,30]},\"version\":1}";

/// Both groups are green for 7 of 60 seconds, far less than they need.
pub const SHORT: &str =
    "{\"branches\":[[null]],\"budget\":1,\"claim\":\"stopped\",\"least\":[0,1],\"plan\":{\"cycle\":60,\"greens\":[7,7],\"starts\":[0,30]},\"version\":1}";

/// Both groups are green for 8 of 20 seconds; ten cycles are closed.
pub const BRIEF: &str =
    "{\"branches\":[[[0,1]],[[0,1]],[[0,1]],[[0,1]],[[0,1]],[[0,1]],[[0,1]],[[0,1]],[[0,1]],[[0,1]]],\"budget\":200000,\"claim\":\"cycle\",\"least\":[1,1],\"plan\":{\"cycle\":20,\"greens\":[8,8],\"starts\":[0,10]},\"version\":1}";

/// A plan of the crossroads.
pub const CROSSED: &str =
    "{\"branches\":[],\"budget\":200000,\"claim\":\"cycle\",\"least\":[1,1],\"plan\":{\"cycle\":90,\"greens\":[25,23,31,30,8,9,6,6],\"starts\":[0,0,30,30,65,66,30,65]},\"version\":1}";

/// Nine cycles of three groups, of which none has a plan.
pub const NONE: &str =
    "{\"branches\":[[[0,1]],[2,[0,1,2],[0,2,1]],[2,[0,1,2],[0,2,1]],[2,[0,1,2],[0,2,1]],[2,[0,1,2],[0,2,1]],[2,[0,1,2],[0,2,1]],[2,[0,1,2],[0,2,1]],[2,[0,1,2],[0,2,1]],[2,[0,1,2],[0,2,1]]],\"budget\":200000,\"claim\":\"infeasible\",\"least\":[1,1],\"plan\":null,\"version\":1}";

/// One node of three groups was visited.
pub const BEGUN: &str =
    "{\"branches\":[[2,null,null]],\"budget\":1,\"claim\":\"stopped\",\"least\":[1,1],\"plan\":null,\"version\":1}";
