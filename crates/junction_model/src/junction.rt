ghost use Rattle.std.specs.Prelude.{◌≡◌, ◌≤◌, ◌↔◌, IsTrue, IfOk};
ghost use Rattle.conflict_matrix.specs.Conflicts.{matrix_of};
ghost use Rattle.junction_model.specs.Covers.{cover_of};
ghost use Rattle.junction_model.specs.Junction.{junction_from};
ghost use Rattle.junction_model.specs.Narrowed.{narrowed};
ghost use Rattle.junction_model.specs.Rules.{IsJunction};

use crate::covers::tree_cover;
use crate::group::Group;
use crate::rules::{are_conflicts, are_cycles, are_groups, are_lanes};
use conflict_matrix::Conflicts;
use flow_model::Lane;
use sig_base::{NoMemory, Title};
use std::alloc::Global;
use std::marker::Model;

/// A junction that keeps all the rules of a junction file.
///
/// Contracts see it as a record of its title's bytes, its least and greatest cycle in seconds, its
/// list of groups, its list of lanes and the table of its conflicts and links.
#[derive(Debug, Drop)]
pub struct Junction {
    title: Title,
    least_cycle: u32,
    greatest_cycle: u32,
    groups: Vec<Group>,
    lanes: Vec<Lane>,
    conflicts: Conflicts,
}

impl Model for Junction {
    ghost use Rattle.junction_model.specs.Junction.{JunctionView, junction_from};
    ghost use Rattle.junction_model.specs.Rules.{IsJunction};
    ghost use Rattle.conflict_matrix.specs.Conflicts.{matrix_of};

    ghost Value = { JunctionView };

    ghost view = { λ j. junction_from j.title j.least_cycle j.greatest_cycle
        j.groups.items j.lanes.items (matrix_of j.conflicts) };

    ghost invariant = { λ j. IsJunction (junction_from j.title j.least_cycle j.greatest_cycle
        j.groups.items j.lanes.items (matrix_of j.conflicts)) };
}

impl Junction {
    /// Whether the parts keep all rules of a junction; `false` too where the conflicts don't have as many groups as the
    /// list.
    pub fn accepts(
        title: &Title,
        least_cycle: u32,
        greatest_cycle: u32,
        groups: &[Group],
        lanes: &[Lane],
        conflicts: &Conflicts,
    ) -> bool
        ensures { IsTrue result ↔
            IsJunction (junction_from title.now least_cycle greatest_cycle
            groups.now lanes.now (matrix_of conflicts.now)) }
    {
        let _ = title.bytes();
        are_cycles(least_cycle, greatest_cycle)
            && are_groups(groups)
            && are_lanes(groups.len(), lanes)
            && are_conflicts(groups, conflicts)
    }

    /// The junction of these parts.
    pub fn new(
        title: Title,
        least_cycle: u32,
        greatest_cycle: u32,
        groups: Vec<Group>,
        lanes: Vec<Lane>,
        conflicts: Conflicts,
    ) -> Junction
        requires { IsJunction (junction_from title least_cycle greatest_cycle
            groups.items lanes.items (matrix_of conflicts)) }
        ensures { result ≡ junction_from title least_cycle greatest_cycle
            groups.items lanes.items (matrix_of conflicts) }
    {
        Junction {
            title,
            least_cycle,
            greatest_cycle,
            groups,
            lanes,
            conflicts,
        }
    }

    /// The same junction with this cycle alone, in seconds, as the least and the greatest one.
    pub fn narrow(&self, alloc: Global, cycle: u32) -> Result<Junction, NoMemory>
        requires least { self.now.least_cycle ≤ cycle }
        requires greatest { cycle ≤ self.now.greatest_cycle }
        ensures { IfOk result (λ j. j ≡ narrowed self.now cycle) }
    {
        self.rules();
        let groups = Vec::from_slice(alloc, &self.groups)?;
        let lanes = Vec::from_slice(alloc, &self.lanes)?;
        Ok(Junction::new(self.title, cycle, cycle, groups, lanes, self.conflicts))
    }

    /// What each junction keeps. This method does nothing: a caller that rests on the rules calls it.
    pub fn rules(&self)
        ensures { IsJunction self.now }
    {
        let _ = &self.title;
    }

    /// What the junction is called.
    pub fn title(&self) -> &Title
        ensures value { result.now ≡ self.now.title }
    {
        &self.title
    }

    /// The shortest cycle that a plan may have, in seconds.
    pub fn least_cycle(&self) -> u32
        ensures value { result ≡ self.now.least_cycle }
    {
        self.least_cycle
    }

    /// The longest cycle that a plan may have, in seconds.
    pub fn greatest_cycle(&self) -> u32
        ensures value { result ≡ self.now.greatest_cycle }
    {
        self.greatest_cycle
    }

    /// The signal groups, in the order of the file.
    pub fn groups(&self) -> &[Group]
        ensures value { result.now ≡ self.now.groups }
    {
        &self.groups
    }

    /// The lanes, in the order of the file.
    pub fn lanes(&self) -> &[Lane]
        ensures value { result.now ≡ self.now.lanes }
    {
        &self.lanes
    }

    /// The table of the groups' conflicts, with their intergreens in seconds, and the start links.
    pub fn conflicts(&self) -> &Conflicts
        ensures value { matrix_of result.now ≡ self.now.conflicts }
    {
        &self.conflicts
    }

    /// The greatest number of nodes that the search trees of all cycles can have together, where each
    /// tree decides every conflicting pair without group 0, and every link, at most once on a branch.
    pub fn covers(&self) -> u128
        ensures { result ≡ cover_of self.now }
    {
        self.rules();
        let cycles = u128::from(self.greatest_cycle() - self.least_cycle()) + 1;
        cycles * tree_cover(self.conflicts())
    }
}
