//! What is true of all texts of certificates. The function does nothing: it is the place where the laws are proved.
ghost use Rattle.plan_certificate.specs.Laws.{WrittenLaw, OneCertificateLaw, RefusalLaw, OneFaultLaw, TotalityLaw};

/// The text of a certificate spells it. For 2 to 16 groups every list of bytes either spells one
/// certificate, and is refused for nothing but want of memory, or is refused for one fault of its
/// own.
pub fn text_laws()
    ensures written { WrittenLaw }
    ensures one_certificate { OneCertificateLaw }
    ensures refusal { RefusalLaw }
    ensures one_fault { OneFaultLaw }
    ensures totality { TotalityLaw }
{}
