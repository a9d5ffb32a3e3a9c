/// A plan of cycle 90 that fits it.
pub const STARTS: [u32; 8] = [0, 0, 30, 30, 65, 66, 30, 65];

pub const GREENS: [u32; 8] = [25, 23, 31, 30, 8, 9, 6, 6];

/// A crossroads of eight groups: two main approaches, two side approaches, two right turns and two
/// crossings.
pub const CROSSROADS: &str = "version = 1
name = \"crossroads\"
least_cycle = 40
greatest_cycle = 120

[[group]]
name = \"N\"
min_green = 7
amber = 3
red_amber = 2
start_lost = 2
end_gain = 1

[[group]]
name = \"S\"
min_green = 7
amber = 3
red_amber = 2
start_lost = 2
end_gain = 1

[[group]]
name = \"E\"
min_green = 7
amber = 3
red_amber = 2
start_lost = 2
end_gain = 1

[[group]]
name = \"W\"
min_green = 7
amber = 3
red_amber = 2
start_lost = 2
end_gain = 1

[[group]]
name = \"ER\"
min_green = 5
amber = 3
red_amber = 2
start_lost = 2
end_gain = 1

[[group]]
name = \"WR\"
min_green = 5
amber = 3
red_amber = 2
start_lost = 2
end_gain = 1

[[group]]
name = \"P\"
min_green = 6
amber = 6
red_amber = 0
start_lost = 0
end_gain = 0

[[group]]
name = \"Q\"
min_green = 6
amber = 6
red_amber = 0
start_lost = 0
end_gain = 0

[[lane]]
name = \"N1\"
group = \"N\"
arrival = 420
saturation = 1800
limit = 900

[[lane]]
name = \"S1\"
group = \"S\"
arrival = 380
saturation = 1800
limit = 900

[[lane]]
name = \"E1\"
group = \"E\"
arrival = 560
saturation = 1900
limit = 900

[[lane]]
name = \"E2\"
group = \"E\"
arrival = 520
saturation = 1850
limit = 900

[[lane]]
name = \"W1\"
group = \"W\"
arrival = 540
saturation = 1900
limit = 900

[[lane]]
name = \"W2\"
group = \"W\"
arrival = 0
saturation = 1800
limit = 900

[[lane]]
name = \"ER1\"
group = \"ER\"
arrival = 110
saturation = 1700
limit = 900

[[lane]]
name = \"WR1\"
group = \"WR\"
arrival = 130
saturation = 1700
limit = 900

[[conflict]]
a = \"N\"
b = \"E\"
a_to_b = 5
b_to_a = 5

[[conflict]]
a = \"N\"
b = \"W\"
a_to_b = 5
b_to_a = 5

[[conflict]]
a = \"N\"
b = \"ER\"
a_to_b = 5
b_to_a = 5

[[conflict]]
a = \"N\"
b = \"WR\"
a_to_b = 5
b_to_a = 5

[[conflict]]
a = \"N\"
b = \"P\"
a_to_b = 5
b_to_a = 8

[[conflict]]
a = \"N\"
b = \"Q\"
a_to_b = 5
b_to_a = 8

[[conflict]]
a = \"S\"
b = \"E\"
a_to_b = 5
b_to_a = 5

[[conflict]]
a = \"S\"
b = \"W\"
a_to_b = 5
b_to_a = 5

[[conflict]]
a = \"S\"
b = \"ER\"
a_to_b = 5
b_to_a = 5

[[conflict]]
a = \"S\"
b = \"WR\"
a_to_b = 5
b_to_a = 5

[[conflict]]
a = \"S\"
b = \"P\"
a_to_b = 5
b_to_a = 8

[[conflict]]
a = \"E\"
b = \"WR\"
a_to_b = 5
b_to_a = 5

[[conflict]]
a = \"W\"
b = \"ER\"
a_to_b = 5
b_to_a = 5

[[conflict]]
a = \"W\"
b = \"Q\"
a_to_b = 5
b_to_a = 8

[[conflict]]
a = \"WR\"
b = \"P\"
a_to_b = 5
b_to_a = 8
";
