use super::answer;
use samples::PAIR;
use std::alloc::Global;
use std::test::Fail;

const NOT_TOML: &str = "bad junction 1 not_toml top 0 whole\n";

#[test]
fn bytes_that_are_no_document(rt: HostRuntime) -> Result<(), Fail> {
    for bytes in [
        b"\xff".as_slice(),
        b"# \xff\n".as_slice(),
        b"version = 1\0".as_slice(),
        b"\xc3\x28".as_slice(),
    ] {
        assert_eq!(rt; answer(rt.alloc(), bytes)?.as_str(), NOT_TOML, "{bytes:?}");
    }
    Ok(())
}

/// A file that lacks its last line end is whole, and a shorter one is refused.
#[test]
fn each_shorter_file(rt: HostRuntime) -> Result<(), Fail> {
    let file = PAIR.as_bytes();
    for length in 0..file.len() {
        let line = answer(rt.alloc(), &file[..length])?;
        let is_read = line.as_str() == "a junction\n";
        assert_eq!(rt;
            is_read,
            length + 1 == file.len(),
            "the first {length} bytes"
        );
    }
    Ok(())
}

const NUMBERS: &str = "min_green = 7\namber = 3\nred_amber = 2\nstart_lost = 0\nend_gain = 0\n";

/// The file of two groups with further ones, up to this number of groups. The last ends with this line.
fn with_groups(alloc: Global, groups: u32, end: &str) -> Result<String, Fail> {
    let mut text = PAIR.to_string(alloc)?;
    for number in 3..=groups {
        let group = format!(in alloc; "[[group]]\nname = \"G{number}\"\n{NUMBERS}")?;
        text.push_str(group.as_str())?;
    }
    text.push_str(end)?;
    Ok(text)
}

#[test]
fn many_groups(rt: HostRuntime) -> Result<(), Fail> {
    for (groups, end, want) in [
        (16, "", "bad junction 10 lonely group 3 whole\n"),
        (17, "", "bad junction 4 count top 0 group\n"),
        (300, "speed = 1\n", "bad junction 3 shape group 300 other\n"),
    ] {
        let text = with_groups(rt.alloc(), groups, end)?;
        let line = answer(rt.alloc(), text.as_bytes())?;
        assert_eq!(rt; line.as_str(), want, "{groups} groups");
    }
    Ok(())
}
