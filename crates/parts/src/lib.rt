// Reads the parts of a table image: the fields of node, mount and entry records by their numbers, and names and link bodies as parts of
// the lent text.
#![tactic(auto)]

pub mod lending;
pub mod records;
pub mod texts;
