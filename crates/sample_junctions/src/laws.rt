//! What is true of all samples. This function does nothing: it is the place where the law is proved.
ghost use Rattle.sample_junctions.specs.Sample.{SampleLaw};

/// A number has at most one sample.
pub fn sample_law()
    ensures { SampleLaw }
{}
