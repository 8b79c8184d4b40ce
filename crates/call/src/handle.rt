// The checks of the directory handle (RULES 7.4), whose numbers may be any.
ghost use Rattle.std.specs.Prelude.{◌≡◌};
ghost use Rattle.model.specs.Handles.{handle_refused};
ghost use Rattle.image.specs.Images.{tree};
ghost use Rattle.checks.specs.Checks.{check_of};

use checks::refuse;
use model::{Errno, Handle, Refusal};
use tree::{Table, find_mount, is_directory, is_under};

// In this order: number out of range, not a directory, not under the mount's root or covered.
pub fn check_handle(t: Table<'_>, h: Handle) -> Result<(), Refusal>
    ensures { result ≡ check_of (handle_refused (tree t.entry.image) h) }
{
    let image = t.image;
    if image.counts.mounts <= h.mount {
        return refuse(Errno::Ebadf);
    }
    if image.counts.nodes <= h.node {
        return refuse(Errno::Ebadf);
    }
    if !is_directory(image, h.node) {
        return refuse(Errno::Enotdir);
    }
    if !is_under(image, h.node, image.mount_root(h.mount)) {
        return refuse(Errno::Ebadf);
    }
    if find_mount(t, h.mount, h.node).is_some() {
        return refuse(Errno::Ebadf);
    }
    Ok(())
}
