//! The edges of an order as far as they are known, by which walks are guessed.
use crate::sums::TwoEdges;
use sig_base::MOST_GROUPS;

/// What stands for no edge: less than any weight and any sum.
pub const NO_WAY: i16 = -20_000;

/// The weight in seconds of the edge to each group from each other. No claim rests on it: a walk that is guessed by it is
/// tested.
#[derive(Clone, Copy)]
pub struct Ways {
    rows: [[i16; 16]; 16],
}

impl Ways {
    /// No edges.
    pub fn none() -> Ways {
        Ways {
            rows: [[NO_WAY; 16]; 16],
        }
    }

    /// Keeps the weight of an edge.
    pub fn put(&mut self, from: usize, to: usize, weight: i16) {
        self.rows[to % MOST_GROUPS][from % MOST_GROUPS] = weight;
    }

    /// Keeps two edges.
    pub fn put_both(&mut self, edges: TwoEdges) {
        self.put(edges.from, edges.to, edges.forth);
        self.put(edges.to, edges.from, edges.back);
    }

    /// Forgets two edges.
    pub fn drop_both(&mut self, edges: TwoEdges) {
        self.put(edges.from, edges.to, NO_WAY);
        self.put(edges.to, edges.from, NO_WAY);
    }

    /// The groups, as bits, from which an edge to this one is tight: with what reaches them it comes to what reaches this
    /// one. The loop has a fixed length, so that it becomes packed instructions.
    pub fn tight(&self, to: usize, reach: &[i16; 16]) -> u16 {
        let row = &self.rows[to % MOST_GROUPS];
        let wanted = reach[to % MOST_GROUPS];
        let mut found = 0;
        for from in 0..MOST_GROUPS {
            let bit = if row[from].wrapping_add(reach[from]) == wanted {
                1u16 << from
            } else {
                0
            };
            found |= bit;
        }
        found
    }
}
