/// Why rows weren't written to their end.
#[derive(Clone, Copy, Debug, PartialEq, Eq)]
pub enum PlayFault {
    /// The sink failed: its count of faults rose in this call.
    Sink,
    /// No memory could be had.
    Memory,
}
