/// Three groups, each in conflict with the others, whose intergreens differ by direction. The pairs are
/// numbered (0, 1), (0, 2), (1, 2).
pub const RING: &str = "version = 1
name = \"ring\"
least_cycle = 39
greatest_cycle = 60

[[group]]
name = \"A\"
min_green = 10
amber = 2
red_amber = 2
start_lost = 0
end_gain = 0

[[group]]
name = \"B\"
min_green = 10
amber = 2
red_amber = 2
start_lost = 0
end_gain = 0

[[group]]
name = \"C\"
min_green = 10
amber = 2
red_amber = 2
start_lost = 0
end_gain = 0

[[lane]]
name = \"A1\"
group = \"A\"
arrival = 100
saturation = 1800

[[lane]]
name = \"B1\"
group = \"B\"
arrival = 100
saturation = 1800

[[lane]]
name = \"C1\"
group = \"C\"
arrival = 100
saturation = 1800

[[conflict]]
a = \"A\"
b = \"B\"
a_to_b = 3
b_to_a = 8

[[conflict]]
a = \"A\"
b = \"C\"
a_to_b = 8
b_to_a = 3

[[conflict]]
a = \"B\"
b = \"C\"
a_to_b = 3
b_to_a = 8
";
