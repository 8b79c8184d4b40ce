// The checks of the given path (RULES 7.3).
ghost use Rattle.std.specs.Prelude.{◌≡◌};
ghost use Rattle.model.specs.Path.{path_refused};
ghost use Rattle.checks.specs.Checks.{check_of};

use checks::refuse;
use model::{Errno, MOST_TEXT, Refusal};
use strings::holds_byte;

// In this order: too long, empty, zero byte.
pub fn check_path(path: &[u8]) -> Result<(), Refusal>
    ensures { result ≡ check_of (path_refused path.now) }
{
    if MOST_TEXT < path.len() {
        return refuse(Errno::Enametoolong);
    }
    if path.len() == 0 {
        return refuse(Errno::Enoent);
    }
    if holds_byte(path, 0) {
        return refuse(Errno::Einval);
    }
    Ok(())
}
