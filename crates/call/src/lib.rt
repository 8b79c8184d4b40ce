// What refuses a call before its walk, once its table is accepted: open_how, path and handle, in the order of RULES 7.1.
#![tactic(auto)]

pub mod handle;
pub mod path;

ghost use Rattle.std.specs.Prelude.{◌≡◌};
ghost use Rattle.model.specs.Resolve.{call_of, unchecked_by};
ghost use Rattle.call.specs.Calls.{call_read};

use crate::handle::check_handle;
use crate::path::check_path;
use model::{Handle, Refusal};
use open_how::{How, IN_ROOT, has, read_how};
use text::is_absolute;
use tree::Table;

// "with an absolute path, no IN_ROOT and no mark, the handle isn't checked" (RULES 7.5)
fn handle_unchecked(path: &[u8], resolve: u64, mark: bool) -> bool
    ensures { result ≡ unchecked_by path.now resolve mark }
{
    is_absolute(path) && !has(IN_ROOT, resolve) && !mark
}

// The checks of a call over an accepted table: open_how, path, handle. It walks by the fields of its open_how, or is refused.
pub fn check_call(t: Table<'_>, h: Handle, path: &[u8], how: &[u8]) -> Result<How, Refusal>
    ensures { result ≡ call_read t.entry.image.bytes.now (call_of h path.now how.now) }
{
    let fields = read_how(how)?;
    check_path(path)?;
    if handle_unchecked(path, fields.resolve, h.mark) {
        return Ok(fields);
    }
    check_handle(t, h)?;
    Ok(fields)
}
