// A name looked up in one directory of a table (RULES 18.5).
#![tactic(auto)]

ghost use Rattle.std.specs.Prelude.{◌≡◌, ℕ};
ghost use Rattle.model.specs.Lookup.{missing, lookup_name};
ghost use Rattle.model.specs.TableCheck.{table_check};

use model::{Entry, Errno, Miss};
use name_search::search_names;
use table::check;
use tree::Table;

fn miss(errno: Errno, compared: usize) -> Result<Entry, Miss>
    ensures { result ≡ missing errno compared }
{
    Err(Miss { errno, compared })
}

// The answer over a table that was accepted before, for a caller who checked it once.
pub fn lookup_accepted(image: &[u8], node: usize, name: &[u8]) -> Result<Entry, Miss>
    requires { table_check image.now ≡ Ok tt }
    ensures { (result ≡ lookup_name image.now node name.now) × (image.exit.now ≡ image.entry.now) × (name.exit.now ≡ name.entry.now) }
{
    let t = Table::of(image);
    if t.image.counts.nodes <= node {
        return miss(Errno::Ebadf, 0);
    }
    if t.image.node_kind(node) != 1 {
        return miss(Errno::Enotdir, 0);
    }
    let h = search_names(t, node, name);
    let Some(number) = h.found else {
        return miss(Errno::Enoent, h.compared);
    };
    Ok(Entry {
        number,
        node: t.image.entry_node(number),
        compared: h.compared,
    })
}

// The answer, for any bytes and any number.
pub fn lookup(image: &[u8], node: usize, name: &[u8]) -> Result<Entry, Miss>
    ensures { (result ≡ lookup_name image.now node name.now) × (image.exit.now ≡ image.entry.now) × (name.exit.now ≡ name.entry.now) }
{
    match check(image) {
        Ok(()) => lookup_accepted(image, node, name),
        Err(_) => miss(Errno::Euclean, 0),
    }
}
