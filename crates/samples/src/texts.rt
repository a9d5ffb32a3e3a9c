use std::alloc::Global;
use std::test::Fail;

/// The text with the first place of `old` changed to `new`.
pub fn changed(alloc: Global, text: &str, old: &str, new: &str) -> Result<String, Fail> {
    let (before, after) = text
        .split_once(old)
        .ok_or("the text lacks what is to be changed")?;
    Ok(format!(in alloc; "{before}{new}{after}")?)
}

/// The file with these cycles, in seconds, in place of its own.
pub fn with_cycles(alloc: Global, text: &str, least: u32, greatest: u32) -> Result<String, Fail> {
    let (before, from) = text.split_once("least_cycle").ok_or("no cycles")?;
    let (_, after) = from.split_once("\n\n").ok_or("no end of the cycles")?;
    Ok(format!(in alloc; "{before}least_cycle = {least}\ngreatest_cycle = {greatest}\n\n{after}")?)
}
