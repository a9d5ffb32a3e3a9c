//! Reports, worked out by hand.

/// That of the best plan of the pair, as a reader derives it from the file:
///
/// - With a green of g in a cycle of 60 a lane has the multiplier 900 * 1800 * g / (1000 * 450 * 60),
///   which is 3g/50. Both greens and both intergreens of 5 fill the cycle at most, so the greens have
///   50 seconds together, and the lesser one 25 at most: 75/50, of which 50 per cent lie above 1.
/// - A, the first group, starts at 0 and ends at 25, so B may start at 30; it ends at 55, 5 before A.
/// - The one conflict is one of the first group, which comes first, so no order is left to choose and
///   the tree has one node: for more than 3/2 each green needs 26 seconds, and 26 + 5 + 26 + 5 is 62.
/// - Saturation: 450 * 60 / (1800 * 25) = 27/45.
/// - Delay after Webster, with 25/60 = 5/12 of the cycle green, and one vehicle in 8 seconds:
///   60 * (7/12)^2 / (2 * (1 - 5/12 * 3/5)) = (245/12) / (3/2) = 245/18 of the red, and
///   (3/5)^2 / (2 * 1/8 * (1 - 3/5)) = (9/25) / (1/10) = 18/5 of chance; 245/18 + 18/5 = 1549/90, and
///   9/10 of it is 1549/100.
pub const OF_BEST: &str = "junction pair
claim capacity
least 1/1
nodes 1
cycle 60
multiplier 3/2
reserve 50/1 per cent
group A start 0 green 25
group B start 30 green 25
lane A1 saturation 3/5 delay 1549/100
lane B1 saturation 3/5 delay 1549/100
stage 1 first 0 seconds 25 groups A
stage 2 first 30 seconds 25 groups B
";

/// That of the shortest cycle of the ring.
pub const OF_SHORTEST: &str = "junction ring
claim cycle
least 1/1
nodes 0
cycle 39
multiplier 54/13
reserve 4100/13 per cent
group A start 0 green 10
group B start 13 green 10
group C start 26 green 10
lane A1 saturation 13/60 delay 11680713/1038700
lane B1 saturation 13/60 delay 11680713/1038700
lane C1 saturation 13/60 delay 11680713/1038700
stage 1 first 0 seconds 10 groups A
stage 2 first 13 seconds 10 groups B
stage 3 first 26 seconds 10 groups C
";

/// That of a search for twice the flows of the pair.
pub const OF_NO_PLAN: &str = "junction pair
claim infeasible
least 2/1
nodes 1
";
