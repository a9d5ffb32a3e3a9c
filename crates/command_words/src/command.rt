use sig_base::Ratio;

/// A command of the command line. The name of a junction and that of a certificate come first, in
/// this order: a shelf holds bytes under them. They aren't empty, don't begin with `-` and differ.
#[derive(Clone, Copy, Debug, PartialEq, Eq)]
pub enum Command<'w> {
    /// `capacity JUNCTION CERT [--least N/D] [--budget N]`: search the greatest reserve capacity.
    /// The third part is the least multiple of the arrivals that a plan has to carry, in lowest
    /// terms with parts of at most 1000000; the fourth is the most nodes that the search may visit,
    /// at least 1.
    Capacity(&'w str, &'w str, Ratio, u64),
    /// `cycle JUNCTION CERT [--least N/D] [--budget N]`: search the shortest cycle. The parts are
    /// those of `Capacity`.
    Cycle(&'w str, &'w str, Ratio, u64),
    /// `check JUNCTION CERT`: judge a certificate.
    Check(&'w str, &'w str),
    /// `play JUNCTION CERT SECONDS`: play a certificate's plan for so many seconds, at most 604800.
    Play(&'w str, &'w str, u32),
    /// `sample NUMBER JUNCTION CERT`: make the sample junction of a number, and search its greatest
    /// reserve capacity with the options that are taken where none stand.
    Sample(u32, &'w str, &'w str),
}
