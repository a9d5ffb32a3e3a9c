ghost use Rattle.std.specs.Prelude.{◌≡◌};
ghost use Rattle.command_words.specs.Words.{is_file_name, are_names};

/// Whether a word can be a name: it isn't empty and doesn't begin with `-`.
fn is_file_name(word: &str) -> bool
    ensures { result ≡ is_file_name word.now }
{
    match word.as_bytes() {
        [] => false,
        [first, ..] => *first != b'-',
    }
}

/// Whether two words can be the names of a junction and of a certificate, which differ.
pub fn are_names(junction: &str, certificate: &str) -> bool
    ensures { result ≡ are_names junction.now certificate.now }
{
    is_file_name(junction) && is_file_name(certificate) && junction != certificate
}
