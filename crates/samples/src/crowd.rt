use std::alloc::{AllocError, Global};

const HEAD: &str = "version = 1
name = \"crowd\"
least_cycle = 300
greatest_cycle = 300
";

/// The file of sixteen groups that all conflict, at a cycle of 300 seconds, of which 60 have to pass between
/// any two of them. Each group has two lanes.
pub fn crowd(alloc: Global) -> Result<String, AllocError> {
    let mut text = HEAD.to_string(alloc)?;
    for group in 0..16u32 {
        let own = group_tables(alloc, group)?;
        text.push_str(own.as_str())?;
        for other in 0..group {
            let between = conflict_table(alloc, other, group)?;
            text.push_str(between.as_str())?;
        }
    }
    Ok(text)
}

fn group_tables(alloc: Global, group: u32) -> Result<String, AllocError> {
    format!(in alloc;
        "[[group]]\nname = \"G{group}\"\nmin_green = 1\namber = 0\nred_amber = 0\nstart_lost = 0\nend_gain = 0\n{}{}",
        lane_table(alloc, group, 1)?,
        lane_table(alloc, group, 2)?
    )
}

fn lane_table(alloc: Global, group: u32, lane: u32) -> Result<String, AllocError> {
    format!(in alloc;
        "[[lane]]\nname = \"G{group}-{lane}\"\ngroup = \"G{group}\"\narrival = 10\nsaturation = 1800\n"
    )
}

fn conflict_table(alloc: Global, first: u32, second: u32) -> Result<String, AllocError> {
    format!(in alloc;
        "[[conflict]]\na = \"G{first}\"\nb = \"G{second}\"\na_to_b = 60\nb_to_a = 60\n"
    )
}
