//! What is true of all solutions.
ghost use Rattle.std.specs.Prelude.{ℕ, List};
ghost use Rattle.conflict_matrix.specs.Matrix.{Matrix};
ghost use Rattle.constraint_cycles.specs.Starts.{MeetsOrder};
ghost use Rattle.constraint_cycles.specs.declared.mark.Mark.{Mark};
ghost use Rattle.difference_system.specs.Solution.{OneLeastLaw};

/// An order has one list of least starts of a length. The function does nothing: it is the place where the law is proved.
pub fn least_starts_law()
    ensures { (m : Matrix) (marks : List Mark) (needs : List ℕ) (cycle : ℕ)
        → OneLeastLaw (MeetsOrder m marks needs cycle) }
{}
