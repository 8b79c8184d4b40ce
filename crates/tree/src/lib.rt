// An accepted table, and searches over its tree: the mount on a place, and whether a directory is under a root.
#![tactic(auto)]

mod table;

ghost use Rattle.std.specs.Prelude.{true, ◌≡◌, ℕ, ◌+◌, ◌≤◌, ◌<◌};
ghost use Rattle.model.specs.Tree.{is_directory, under, mount_on};
ghost use Rattle.model.specs.Walk.{place_at};
ghost use Rattle.laws.specs.Acceptance.{DirectoriesHold};
ghost use Rattle.image.specs.Images.{tree};

pub use crate::table::Table;
use image::Image;

pub fn is_directory(image: Image<'_>, n: usize) -> bool
    ensures { result ≡ is_directory (tree image.entry) n }
{
    n < image.counts.nodes && image.node_kind(n) == 1
}

// Whether following parents from a directory meets the root. The nodes keep rule 4, so parents fall.
pub fn is_under(image: Image<'_>, n: usize, root: usize) -> bool
    requires { DirectoriesHold (tree image) × (is_directory (tree image) n ≡ true) }
    ensures { result ≡ under (tree image.entry) n root }
{
    let mut k = n;
    while root < k {
        let parent = image.node_parent(k);
        if parent == k {
            return false;
        }
        k = parent;
    }
    k == root
}

// The mount whose point is a place: one above the place's own, since a mount hangs in a lower one, and none on that one's root.
// What is found is cut to 16 bits, which changes no number, so that the loop keeps no record's position beside it.
pub fn find_mount(t: Table<'_>, mount: usize, node: usize) -> Option<usize>
    requires { (mount < (tree t.image).mounts) × (node < (tree t.image).nodes) }
    ensures { result ≡ mount_on (tree t.entry.image) (place_at mount node) }
{
    let image = t.image;
    let end = image.counts.mounts;
    let first = mount + 1;
    if end <= first {
        return None;
    }
    if node == image.mount_root(mount) {
        return None;
    }
    let wanted = mount + 65536 * node;
    for m in first..end {
        if image.packed_point(m) == wanted {
            return Some(m % 65536);
        }
    }
    None
}
