ghost use Rattle.std.specs.Prelude.{◌≡◌, ◌<◌, ◌≤◌, [], length, take, Some, IfOk, IfErr, MatchOption, slice_get};
ghost use Rattle.conflict_matrix.specs.Matrix.{IsMatrix, intergreen_of, unlinked, with_links};
ghost use Rattle.conflict_matrix.specs.Links.{AreLinkable, AreLinks, IsFirstLinkFault};
ghost use Rattle.conflict_matrix.specs.Numbering.{IsNumbering};
ghost use Rattle.conflict_matrix.specs.Entries.{AreEntries, AreFaultless, IsFirstFault, IsTableOf};

use crate::entry::Entry;
use crate::fault::{ConflictFault, LinkFault};
use crate::filling::filled_cells;
use crate::link::Link;
use crate::linking::first_link_fault;
use crate::numbering::Numbering;
use crate::pairing::{first_lonely, first_repeated, first_self_conflict};
use crate::shortness::first_short;
use crate::sizes::{CELLS, MOST_LINKS, NO_CONFLICT};
use sig_base::{GroupTimes, MOST_GROUPS};

fn first_fault(groups: &[GroupTimes], entries: &[Entry]) -> Option<ConflictFault>
    requires { AreEntries groups.now entries.now }
    ensures { MatchOption result (AreFaultless groups.now entries.now)
        (IsFirstFault groups.now entries.now) }
{
    if let Some(entry) = first_self_conflict(entries) {
        return Some(ConflictFault::SelfConflict(entry));
    }
    if let Some(entry) = first_repeated(entries) {
        return Some(ConflictFault::Twice(entry));
    }
    if let Some(group) = first_lonely(groups.len() as u32, entries) {
        return Some(ConflictFault::Lonely(group));
    }
    first_short(groups, entries).map(|(entry, way)| ConflictFault::ShortIntergreen(entry, way))
}

/// The conflicts among 2 to 16 signal groups, with their intergreens in seconds.
#[derive(Clone, Copy, Debug)]
pub struct Conflicts {
    groups: usize,
    cells: [u8; CELLS],
    numbering: Numbering,
    links: [Link; MOST_LINKS],
    link_count: usize,
    pub ghost table: { IsMatrix (record { groups = groups; cells = cells; links = take link_count links }) },
    pub ghost numbers: { IsNumbering (unlinked groups cells) numbering },
    pub ghost few_links: { link_count ≤ 12 },
}

impl Conflicts {
    ghost use Rattle.conflict_matrix.specs.Conflicts.{matrix_of, pairs_of, pair_number_of, IsPairNumber};

    /// The conflicts that the entries tell, or the first fault. Each kind of fault is tested over the
    /// whole list before the next, in the order of `ConflictFault`'s variants.
    pub fn new(groups: &[GroupTimes], entries: &[Entry]) -> Result<Conflicts, ConflictFault>
        requires { AreEntries groups.now entries.now }
        ensures faultless { IfOk result (λ _. AreFaultless groups.now entries.now) }
        ensures table { IfOk result (λ c.
            IsTableOf (length groups.now) entries.now (matrix_of c)) }
        ensures unlinked { IfOk result (λ c. (matrix_of c).links ≡ []) }
        ensures fault { IfErr result (IsFirstFault groups.now entries.now) }
    {
        if let Some(fault) = first_fault(groups, entries) {
            return Err(fault);
        }
        let cells = filled_cells(entries);
        let numbering = Numbering::new(groups.len(), &cells);
        Ok(Conflicts {
            groups: groups.len(),
            cells,
            numbering,
            links: [Link {
                leader: 0,
                follower: 0,
                after: 0,
            }; MOST_LINKS],
            link_count: 0,
        })
    }

    /// The same conflicts with these links in place of theirs, or the first fault. Each kind of fault
    /// is tested over the whole list before the next, in the order of `LinkFault`'s variants.
    pub fn link(self, links: &[Link]) -> Result<Conflicts, LinkFault>
        requires { AreLinkable (matrix_of self).groups links.now }
        ensures linked { IfOk result (λ c. matrix_of c ≡ with_links (matrix_of self) links.now) }
        ensures faultless { IfOk result (λ _. AreLinks (matrix_of self).groups links.now) }
        ensures fault { IfErr result (IsFirstLinkFault links.now) }
    {
        if let Some(fault) = first_link_fault(links) {
            return Err(fault);
        }
        let cells = self.cells;
        let numbering = self.numbering;
        let mut kept = self.links;
        kept[..links.len()].copy_from_slice(links);
        Ok(Conflicts {
            groups: self.groups,
            cells,
            numbering,
            links: kept,
            link_count: links.len(),
        })
    }

    /// The start links, in their order.
    pub fn links(&self) -> &[Link]
        ensures value { result.now ≡ (matrix_of self.now).links }
        ensures links { AreLinks (matrix_of self.now).groups (matrix_of self.now).links }
    {
        &self.links[..self.link_count]
    }

    /// The number of groups.
    pub fn groups(&self) -> usize
        ensures { result ≡ (matrix_of self.now).groups }
    {
        self.groups
    }

    /// The seconds from the end of `i`'s green to the start of `j`'s; `None` exactly where the two
    /// groups don't conflict.
    pub fn intergreen(&self, i: usize, j: usize) -> Option<u32>
        requires i { i < (matrix_of self.now).groups }
        requires j { j < (matrix_of self.now).groups }
        ensures { result ≡ intergreen_of (matrix_of self.now) i j }
    {
        let cell = self.cells[MOST_GROUPS * i + j];
        if cell == NO_CONFLICT {
            None
        } else {
            Some(u32::from(cell))
        }
    }

    /// The number of conflicting pairs.
    pub fn pair_count(&self) -> usize
        ensures { result ≡ length (pairs_of (matrix_of self.now)) }
    {
        self.numbering.count
    }

    /// The pair of a number: its two groups, the lower one first.
    pub fn pair(&self, number: usize) -> (usize, usize)
        requires { number < length (pairs_of (matrix_of self.now)) }
        ensures { slice_get (pairs_of (matrix_of self.now)) number ≡ Some result }
    {
        let (i, j) = self.numbering.pairs[number];
        (usize::from(i), usize::from(j))
    }

    /// The number of a pair, in either sense; `None` exactly where the two groups don't conflict.
    pub fn pair_number(&self, i: usize, j: usize) -> Option<usize>
        requires i { i < (matrix_of self.now).groups }
        requires j { j < (matrix_of self.now).groups }
        ensures number { result ≡ pair_number_of (matrix_of self.now) i j }
        ensures pair { IsPairNumber (matrix_of self.now) i j result }
    {
        if self.cells[MOST_GROUPS * i + j] == NO_CONFLICT {
            None
        } else {
            Some(usize::from(self.numbering.numbers[MOST_GROUPS * i + j]))
        }
    }
}
