use junction_files::{print, read};
use sample_junctions::sample;
use std::test::Fail;

/// A number, the title of its sample, how many groups that has, and the minimum greens of the first
/// four, in seconds.
type Greens = (u32, &'static str, usize, [u32; 4]);

/// Those of the program `bench/sample.py`. The first draws of sample 1, undivided, are 16838, 5758,
/// 10113, 17515 and 31051: the first is 8 modulo 9, and the others are 2, 1, 3 and 3 modulo 4.
const GREENS: [Greens; 5] = [
    (1, "sample 1", 16, [7, 6, 8, 8]),
    (0, "sample 0", 8, [5, 5, 6, 7]),
    (7, "sample 7", 15, [7, 5, 7, 8]),
    (2147483648, "sample 2147483648", 8, [5, 5, 6, 7]),
    (4294967295, "sample 4294967295", 16, [6, 7, 7, 6]),
];

#[test]
fn minimum_greens_of_samples(rt: HostRuntime) -> Result<(), Fail> {
    for (number, title, groups, greens) in GREENS {
        let junction = sample(rt.alloc(), number)?;
        assert_eq!(rt; junction.title().bytes(), title.as_bytes());
        assert_eq!(rt;
            (junction.least_cycle(), junction.greatest_cycle()),
            (60, 120)
        );
        assert_eq!(rt; junction.groups().len(), groups, "{number}");
        assert_eq!(rt; junction.lanes().len(), 2 * groups, "{number}");
        for (group, min_green) in junction.groups().iter().zip(greens) {
            assert_eq!(rt; group.times.min_green, min_green, "{number}");
        }
    }
    Ok(())
}

/// The number of a sample, a lane's number and its name, its group, its arrival flow and its saturation
/// flow, in vehicles per hour.
type LaneRow = (u32, usize, &'static str, u32, u32, u32);

/// Those of the program `bench/sample.py`.
const LANES: [LaneRow; 9] = [
    (1, 0, "L00", 0, 83, 1854),
    (1, 1, "L01", 0, 26, 1877),
    (1, 2, "L02", 1, 78, 1727),
    (1, 31, "L31", 15, 74, 1759),
    (0, 0, "L00", 0, 30, 1921),
    (0, 1, "L01", 0, 72, 1941),
    (0, 15, "L15", 7, 66, 1701),
    (4294967295, 0, "L00", 0, 102, 1870),
    (4294967295, 31, "L31", 15, 112, 1897),
];

#[test]
fn lanes_of_samples(rt: HostRuntime) -> Result<(), Fail> {
    for (number, index, name, group, arrival, saturation) in LANES {
        let junction = sample(rt.alloc(), number)?;
        let lane = junction.lanes().get(index).ok_or("no lane")?;
        assert_eq!(rt; lane.label.bytes(), name.as_bytes());
        assert_eq!(rt;
            (lane.group, lane.arrival),
            (group, arrival),
            "{number}: {name}"
        );
        assert_eq!(rt;
            (lane.saturation, lane.limit),
            (saturation, 900),
            "{number}: {name}"
        );
    }
    Ok(())
}

/// The number of a sample, how many pairs conflict, a pair's number, its two groups, and the
/// intergreens, in seconds, from the first to the second and back.
type ConflictRow = (u32, usize, usize, (usize, usize), u32, u32);

/// Those of the program `bench/sample.py`.
const CONFLICTS: [ConflictRow; 9] = [
    (1, 45, 0, (0, 1), 7, 6),
    (1, 45, 1, (0, 2), 5, 8),
    (1, 45, 2, (0, 5), 6, 5),
    (1, 45, 3, (0, 7), 5, 8),
    (1, 45, 44, (14, 15), 7, 8),
    (0, 13, 0, (0, 1), 5, 6),
    (0, 13, 1, (0, 2), 7, 6),
    (0, 13, 12, (6, 7), 8, 5),
    (4294967295, 53, 52, (14, 15), 5, 6),
];

#[test]
fn conflicts_of_samples(rt: HostRuntime) -> Result<(), Fail> {
    for (number, count, pair, (i, j), forth, back) in CONFLICTS {
        let junction = sample(rt.alloc(), number)?;
        let conflicts = junction.conflicts();
        assert_eq!(rt; conflicts.pair_count(), count, "{number}");
        assert!(rt; pair < conflicts.pair_count());
        assert_eq!(rt; conflicts.pair(pair), (i, j), "{number}");
        assert!(rt; i < conflicts.groups() && j < conflicts.groups());
        assert_eq!(rt;
            conflicts.intergreen(i, j),
            Some(forth),
            "{number}: {i} to {j}"
        );
        assert_eq!(rt;
            conflicts.intergreen(j, i),
            Some(back),
            "{number}: {j} to {i}"
        );
        assert!(rt; conflicts.links().is_empty());
    }
    Ok(())
}

/// The printed file of a sample spells the same junction.
#[test]
fn printed_samples(rt: HostRuntime) -> Result<(), Fail> {
    for number in [0, 1, 4294967295] {
        let junction = sample(rt.alloc(), number)?;
        let file = print(rt.alloc(), &junction)?;
        let spelled = read(rt.alloc(), &file)?;
        assert!(rt; spelled.title() == junction.title());
        assert!(rt; spelled.groups() == junction.groups());
        assert!(rt; spelled.lanes() == junction.lanes());
        assert_eq!(rt;
            spelled.conflicts().pair_count(),
            junction.conflicts().pair_count()
        );
    }
    Ok(())
}
