ghost use Rattle.std.specs.Prelude.{◌≡◌, ◌≢◌, Ok, Err, IfOk, IfErr};
ghost use Rattle.std.specs.IoError.{error_kind};
ghost use Rattle.std.specs.declared.io.ErrorKind.TheVariants.{OutOfMemory};

use crate::status::Status;
use std::io;

/// The words that the program is given, or the status with which it ends without them.
///
/// Where getting them fails, either no memory could be had, or a word isn't UTF-8, and then they have no
/// form of the command line.
pub fn given_words(got: io::Result<Vec<String>>) -> Result<Vec<String>, Status>
    ensures words { IfOk got (λ words. result ≡ Ok words) }
    ensures memory { IfErr got (λ error.
        error_kind error ≡ OutOfMemory → result ≡ Err Status.Memory) }
    ensures text { IfErr got (λ error.
        error_kind error ≢ OutOfMemory → result ≡ Err Status.BadWords) }
{
    match got {
        Ok(words) => Ok(words),
        Err(error) if error.kind() == io::ErrorKind::OutOfMemory => Err(Status::Memory),
        Err(_) => Err(Status::BadWords),
    }
}
