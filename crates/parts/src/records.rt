// The fields of nodes, mounts and entries, by the record's number. Each asks for the whole record.
ghost use Rattle.std.specs.Prelude.{[], ◌≡◌, ℕ, ◌+◌, ◌*◌, ◌^◌, ◌≤◌, ◌<◌, length};
ghost use Rattle.model.specs.Tree.{kind_in, parent_in, first_in, count_in};
ghost use Rattle.model.specs.Tree.{mount_root_in, mount_parent_in, mount_point_in, mount_zero_in};
ghost use Rattle.model.specs.Tree.{name_offset_in, name_length_in, entry_node_in};
ghost use Rattle.model.specs.Tree.{is_directory};
ghost use Rattle.parts.specs.Parts.{nodes_tree, NodeRecords};

use fields::{u16_at, u32_at};

// How many nodes, mounts and entries there are.
#[derive(Clone, Copy)]
pub struct Counts {
    pub nodes: usize,
    pub mounts: usize,
    pub entries: usize,
}

// A number, and no enum: a `match` on it tells the invalid range apart (DECISIONS, Forms).
pub fn node_kind(nodes: &[u8], n: usize) -> usize
    requires { 12 * n + 12 ≤ length nodes.now }
    ensures { (result ≡ kind_in nodes.now n) × (result < 2 ^ 16) }
{
    u16_at(nodes, 12 * n)
}

pub fn node_parent(nodes: &[u8], n: usize) -> usize
    requires { 12 * n + 12 ≤ length nodes.now }
    ensures { (result ≡ parent_in nodes.now n) × (result < 2 ^ 16) }
{
    u16_at(nodes, 12 * n + 2)
}

pub fn node_first(nodes: &[u8], n: usize) -> usize
    requires { 12 * n + 12 ≤ length nodes.now }
    ensures { (result ≡ first_in nodes.now n) × (result < 2 ^ 32) }
{
    u32_at(nodes, 12 * n + 4)
}

pub fn node_count(nodes: &[u8], n: usize) -> usize
    requires { 12 * n + 12 ≤ length nodes.now }
    ensures { (result ≡ count_in nodes.now n) × (result < 2 ^ 32) }
{
    u32_at(nodes, 12 * n + 8)
}

pub fn is_directory(nodes: &[u8], c: Counts, n: usize) -> bool
    requires { NodeRecords c nodes.now }
    ensures { result ≡ is_directory (nodes_tree c nodes.now []) n }
{
    n < c.nodes && node_kind(nodes, n) == 1
}

pub fn mount_root(mounts: &[u8], m: usize) -> usize
    requires { 8 * m + 8 ≤ length mounts.now }
    ensures { (result ≡ mount_root_in mounts.now m) × (result < 2 ^ 16) }
{
    u16_at(mounts, 8 * m)
}

pub fn mount_parent(mounts: &[u8], m: usize) -> usize
    requires { 8 * m + 8 ≤ length mounts.now }
    ensures { (result ≡ mount_parent_in mounts.now m) × (result < 2 ^ 16) }
{
    u16_at(mounts, 8 * m + 2)
}

pub fn mount_point(mounts: &[u8], m: usize) -> usize
    requires { 8 * m + 8 ≤ length mounts.now }
    ensures { (result ≡ mount_point_in mounts.now m) × (result < 2 ^ 16) }
{
    u16_at(mounts, 8 * m + 4)
}

// A mount's parent and point in one number, so that a search compares both at once.
pub fn packed_point(mounts: &[u8], m: usize) -> usize
    requires { 8 * m + 8 ≤ length mounts.now }
    ensures { (result ≡ mount_parent_in mounts.now m + 65536 * mount_point_in mounts.now m)
        × (mount_parent_in mounts.now m < 2 ^ 16) × (result < 2 ^ 32) }
{
    u32_at(mounts, 8 * m + 2)
}

pub fn mount_zero(mounts: &[u8], m: usize) -> usize
    requires { 8 * m + 8 ≤ length mounts.now }
    ensures { (result ≡ mount_zero_in mounts.now m) × (result < 2 ^ 16) }
{
    u16_at(mounts, 8 * m + 6)
}

pub fn name_offset(entries: &[u8], e: usize) -> usize
    requires { 8 * e + 8 ≤ length entries.now }
    ensures { (result ≡ name_offset_in entries.now e) × (result < 2 ^ 32) }
{
    u32_at(entries, 8 * e)
}

pub fn name_length(entries: &[u8], e: usize) -> usize
    requires { 8 * e + 8 ≤ length entries.now }
    ensures { (result ≡ name_length_in entries.now e) × (result < 2 ^ 16) }
{
    u16_at(entries, 8 * e + 4)
}

pub fn entry_node(entries: &[u8], e: usize) -> usize
    requires { 8 * e + 8 ≤ length entries.now }
    ensures { (result ≡ entry_node_in entries.now e) × (result < 2 ^ 16) }
{
    u16_at(entries, 8 * e + 6)
}
