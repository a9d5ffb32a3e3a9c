use plan_model::Plan;

/// A request for a plan at a second.
#[derive(Clone, Copy, Debug)]
pub struct Request {
    /// The second at which it comes.
    pub at: u64,
    /// The plan that it asks for.
    pub plan: Plan,
}
