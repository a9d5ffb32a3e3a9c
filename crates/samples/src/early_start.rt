/// The three groups of the chain, of which the third starts 10 seconds after the first.
pub const EARLY_START: &str = "version = 2
name = \"early start\"
least_cycle = 24
greatest_cycle = 60

[[group]]
name = \"A\"
min_green = 7
amber = 3
red_amber = 2
start_lost = 0
end_gain = 0
max_green = 20

[[group]]
name = \"B\"
min_green = 7
amber = 3
red_amber = 2
start_lost = 0
end_gain = 0

[[group]]
name = \"C\"
min_green = 7
amber = 3
red_amber = 2
start_lost = 0
end_gain = 0

[[lane]]
name = \"A1\"
group = \"A\"
arrival = 100
saturation = 1800

[[lane]]
name = \"B1\"
group = \"B\"
arrival = 100
saturation = 1800

[[lane]]
name = \"C1\"
group = \"C\"
arrival = 100
saturation = 1800

[[conflict]]
a = \"A\"
b = \"B\"
a_to_b = 5
b_to_a = 5

[[conflict]]
a = \"B\"
b = \"C\"
a_to_b = 5
b_to_a = 5

[[link]]
leader = \"A\"
follower = \"C\"
after = 10
";
