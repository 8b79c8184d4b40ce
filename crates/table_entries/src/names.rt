// An entry's name by itself: where it lies, how long it is, and which bytes it may not be.
ghost use Rattle.std.specs.Prelude.{true, false, [], ◌≡◌, ◌<◌};
ghost use Rattle.model.specs.TableCheck.{name_holds};
ghost use Rattle.parts.specs.Parts.{entries_tree, EntryRecords};
ghost use Rattle.barred_bytes.specs.Barred.{holds_barred};
ghost use Rattle.table_texts.specs.Barred.{sure_records};

use barred_bytes::short_holds;
use model::MOST_NAME;
use parts::records::{Counts, name_length, name_offset};
use parts::texts::name;
use strings::{Dots, dots};

// Whether a zero byte or a slash stands in a name that may be known to be clean. Other names are those of small tables, and one that breaks
// the rule.
fn holds_forbidden(s: &[u8], clean: bool) -> bool
    requires { clean ≡ true → holds_barred true s.now ≡ false }
    ensures { result ≡ holds_barred true s.now }
{
    !clean && short_holds(s)
}

// The names of entries below `sure` are known to have no zero byte and no slash.
pub fn name_holds(entries: &[u8], text: &[u8], c: Counts, e: usize, sure: usize) -> bool
    requires { EntryRecords c entries.now × (e < c.entries) × (sure ≡ sure_records true entries.now text.now c.entries) }
    ensures { result ≡ name_holds (entries_tree c [] entries.now text.now) e }
{
    let length = name_length(entries, e);
    if text.len() < name_offset(entries, e) + length || length == 0 || MOST_NAME < length {
        return false;
    }
    let s = name(entries, text, e);
    !holds_forbidden(s, e < sure) && (s[0] != b'.' || dots(s) == Dots::Normal)
}
