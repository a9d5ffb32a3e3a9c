//! Faults in which groups the entries name: a group that conflicts with itself, a pair that is named
//! twice, a group that no entry names.
ghost use Rattle.std.specs.Prelude.{◌<◌, ◌≤◌, ◌↔◌, length, IsTrue};
ghost use Rattle.sig_base.specs.First.{FirstOrNone};
ghost use Rattle.conflict_matrix.specs.Entries.{IsSamePair, SelfConflictAt, RepeatedAt, LonelyAt};

use crate::entry::Entry;

pub fn first_self_conflict(entries: &[Entry]) -> Option<u32>
    requires { length entries.now ≤ 120 }
    ensures { FirstOrNone (SelfConflictAt entries.now) (length entries.now) result }
{
    for (k, entry) in entries.iter().enumerate() {
        if entry.a == entry.b {
            return Some(k as u32);
        }
    }
    None
}

fn is_same_pair(one: &Entry, other: &Entry) -> bool
    ensures { IsTrue result ↔ IsSamePair one.now other.now }
{
    (one.a == other.a && one.b == other.b) || (one.a == other.b && one.b == other.a)
}

fn is_repeated(entries: &[Entry], k: usize) -> bool
    requires { k < length entries.now }
    ensures { IsTrue result ↔ RepeatedAt entries.now k }
{
    for earlier in 0..k {
        if is_same_pair(&entries[earlier], &entries[k]) {
            return true;
        }
    }
    false
}

pub fn first_repeated(entries: &[Entry]) -> Option<u32>
    requires { length entries.now ≤ 120 }
    ensures { FirstOrNone (RepeatedAt entries.now) (length entries.now) result }
{
    for k in 0..entries.len() {
        if is_repeated(entries, k) {
            return Some(k as u32);
        }
    }
    None
}

fn is_lonely(group: u32, entries: &[Entry]) -> bool
    ensures { IsTrue result ↔ LonelyAt entries.now group }
{
    !entries
        .iter()
        .any(|entry| entry.a == group || entry.b == group)
}

pub fn first_lonely(groups: u32, entries: &[Entry]) -> Option<u32>
    ensures { FirstOrNone (LonelyAt entries.now) groups result }
{
    for group in 0..groups {
        if is_lonely(group, entries) {
            return Some(group);
        }
    }
    None
}
