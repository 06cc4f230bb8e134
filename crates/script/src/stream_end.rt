// How a stream ended.
ghost use Rattle.std.specs.Prelude.{◌≡◌, true, false, MatchResult};
ghost use Rattle.std.specs.IoError.{error_kind};

use std::io;
use std::io::ErrorKind;

// An error of this kind, if it failed.
pub(crate) fn ended(failed: bool, kind: ErrorKind) -> io::Result<()>
    ensures { MatchResult result (λ _. failed ≡ false) (λ e. (failed ≡ true) × (error_kind e ≡ kind)) }
{
    if failed {
        return Err(kind.into());
    }
    Ok(())
}
