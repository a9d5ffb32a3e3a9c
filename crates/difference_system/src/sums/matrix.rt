//! The sums as a matrix, and with two more edges.
ghost use Rattle.std.specs.Prelude.{◌≡◌, ◌≤◌, ◌<◌, ℕ, ◌+ℤ◌};
ghost use Rattle.difference_system.specs.Sums.{cell_of, sum_of, IsSmall, AreModest, IsGreatest, AreEdgesAmong, IsGreatestRound, MakesNoCycle, AreWithEdges};

use sig_base::MOST_GROUPS;

/// An edge from one group to another and one back, by their weights in seconds.
#[derive(Clone, Copy)]
pub struct TwoEdges {
    pub from: usize,
    pub to: usize,
    pub forth: i16,
    pub back: i16,
}

fn greatest(a: i16, b: i16, c: i16) -> i16
    ensures { IsGreatest a b c result }
{
    let greater = if a < b { b } else { a };
    if greater < c { c } else { greater }
}

/// The greatest of each cell of a row and of those of two other rows, which come so many seconds later. The loop
/// passes all 16 cells, since one of a fixed length becomes packed instructions; those past the groups may wrap, and
/// nothing reads them.
fn greatest_row(
    row: &[i16; 16],
    by_forth: i16,
    forth: &[i16; 16],
    by_back: i16,
    back: &[i16; 16],
    groups: usize,
) -> [i16; 16]
    requires few { groups ≤ 16 }
    requires by_forth { IsSmall by_forth }
    requires by_back { IsSmall by_back }
    requires row { (v : ℕ) → v < groups → IsSmall (cell_of row.now v) }
    requires forth { (v : ℕ) → v < groups → IsSmall (cell_of forth.now v) }
    requires back { (v : ℕ) → v < groups → IsSmall (cell_of back.now v) }
    ensures { (v : ℕ) → v < groups → IsGreatest (cell_of row.now v)
        (by_forth +ℤ cell_of forth.now v) (by_back +ℤ cell_of back.now v) (cell_of result v) }
{
    let mut joined = *row;
    for to in 0..MOST_GROUPS {
        let there = by_forth.wrapping_add(forth[to]);
        let again = by_back.wrapping_add(back[to]);
        joined[to] = greatest(row[to], there, again);
    }
    joined
}

/// The sum in seconds from each group to each other.
#[derive(Clone, Copy)]
pub struct Sums {
    rows: [[i16; 16]; 16],
}

impl Sums {
    /// A row for each group, with the sum from it to each group in seconds.
    pub fn rows(&self) -> &[[i16; 16]; 16]
        ensures { result.now ≡ self.now.rows }
    {
        &self.rows
    }

    /// The sums of these rows.
    pub fn of_rows(rows: [[i16; 16]; 16]) -> Sums
        ensures { result.rows ≡ rows }
    {
        Sums { rows }
    }

    /// The sum in seconds from one group to another.
    pub fn sum(&self, from: usize, to: usize) -> i16
        requires from { from < 16 }
        requires to { to < 16 }
    {
        self.rows[from][to]
    }

    /// The greatest sum in seconds round a cycle of the two edges, or of one of them and the sum the other way.
    pub fn greatest_round(&self, groups: usize, edges: TwoEdges) -> i16
        requires few { groups ≤ 16 }
        requires edges { AreEdgesAmong groups edges }
        requires sums { AreModest groups (sum_of self.now) }
        ensures { IsGreatestRound (sum_of self.now) edges result }
    {
        let forth = edges.forth + self.rows[edges.to][edges.from];
        let back = edges.back + self.rows[edges.from][edges.to];
        greatest(edges.forth + edges.back, forth, back)
    }

    /// The sums with two more edges, which make no positive cycle.
    pub fn with_edges(&self, groups: usize, edges: TwoEdges) -> Sums
        requires few { groups ≤ 16 }
        requires edges { AreEdgesAmong groups edges }
        requires sums { AreModest groups (sum_of self.now) }
        requires no_cycle { MakesNoCycle (sum_of self.now) edges }
        ensures { AreWithEdges groups (sum_of self.now) edges (sum_of result) }
    {
        let mut rows = self.rows;
        for group in 0..groups {
            let row = &self.rows[group];
            let by_forth = row[edges.from] + edges.forth;
            let by_back = row[edges.to] + edges.back;
            let forth = &self.rows[edges.to];
            let back = &self.rows[edges.from];
            rows[group] = greatest_row(row, by_forth, forth, by_back, back, groups);
        }
        Sums { rows }
    }
}
