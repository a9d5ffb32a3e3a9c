use plan_certificate::Certificate;
use plan_model::FittedPlan;

/// What a search found, and what shows it.
#[derive(Drop)]
pub struct Design<'j> {
    /// What is claimed, with the trees that show it.
    pub certificate: Certificate,
    /// The plan of the certificate, if any, beside the junction that it fits.
    pub plan: Option<FittedPlan<'j>>,
}
