//! The tree over an arena of buddies. Node 1 is the whole arena, and the halves of node `i` are the
//! nodes `2 i` and `2 i + 1`. Each node has one number, its halvings: how many times its range must
//! be halved to reach the longest range in it that is free. 0 says that the node is free whole.
ghost use Rattle.std.specs.Prelude.{◌≡◌, ◌≢◌, ℕ, ◌+◌, ◌-◌, ◌*◌, ◌/◌, ◌%◌, ◌^◌, ◌<◌, ◌≤◌, length, slice_index};
ghost use Rattle.ck_words.specs.Tree.{joined_halvings, IsConsistentBut, IsConsistent, NoneOutFrom, SameOut, TakesOut, PutsBack};

/// The halvings of a node in which nothing is free.
const FULL: u8 = 25;

/// The halvings of a node whose range is one piece that is out.
const OUT: u8 = 26;

/// The halvings of a node that isn't out, from those of its halves.
fn joined(left: u8, right: u8) -> u8
    ensures { result ≡ joined_halvings left right }
{
    if left == 0 && right == 0 {
        0
    } else {
        left.min(right).min(FULL - 1) + 1
    }
}

/// Counts the nodes above `node` anew, up to the first that stays as it was.
fn rise(halvings: &mut [u8], mut node: usize)
    requires above_root { 1 ≤ node }
    requires in_tree { node < length halvings.old }
    requires even { length halvings.old % 2 ≡ 0 }
    requires others { IsConsistentBut halvings.old (node / 2) }
    requires path { NoneOutFrom halvings.old (node / 2) }
    ensures consistent { IsConsistent halvings.new }
    ensures out { SameOut halvings.old halvings.new }
{
    let mut value = halvings[node];
    while node > 1 {
        let sibling = node + 1 - 2 * (node % 2);
        value = joined(value, halvings[sibling]);
        node /= 2;
        if halvings[node] == value {
            return;
        }
        halvings[node] = value;
    }
}

/// The half of a node whose halvings are at most `spare`: the left one where both are.
fn fitting_half(halvings: &[u8], node: usize, spare: u64) -> usize
    requires positive { 1 ≤ node }
    requires inner { 2 * node + 1 < length halvings.now }
    requires consistent { IsConsistent halvings.now }
    requires small { spare < 24 }
    requires cut { slice_index halvings.now node ≢ 0 }
    requires fits { slice_index halvings.now node ≤ spare + 1 }
    ensures half { result / 2 ≡ node }
    ensures fits { slice_index halvings.now result ≤ spare }
{
    let left = 2 * node;
    if u64::from(halvings[left]) <= spare {
        left
    } else {
        left + 1
    }
}

/// The first node that is free whole, of those `depth` levels below the root.
pub fn descend(halvings: &[u8], depth: u64) -> usize
    requires consistent { IsConsistent halvings.now }
    requires even { length halvings.now % 2 ≡ 0 }
    requires deep { depth ≤ 24 }
    requires tall { 2 * 2 ^ depth ≤ length halvings.now }
    requires fits { slice_index halvings.now 1 ≤ depth }
    ensures from { 2 ^ depth ≤ result }
    ensures to { result < 2 * 2 ^ depth }
    ensures whole { slice_index halvings.now result ≡ 0 }
    ensures path { NoneOutFrom halvings.now result }
    ensures leftmost { slice_index halvings.now 1 ≡ 0 → result ≡ 2 ^ depth }
{
    let mut node = 1;
    let mut spare = depth;
    while spare > 0 && halvings[node] > 0 {
        spare -= 1;
        node = fitting_half(halvings, node, spare);
    }
    node << spare
}

/// Takes a node out that is free whole and lies below no piece that is out.
pub fn take_out(halvings: &mut [u8], node: usize)
    requires positive { 1 ≤ node }
    requires in_tree { node < length halvings.old }
    requires even { length halvings.old % 2 ≡ 0 }
    requires consistent { IsConsistent halvings.old }
    requires whole { slice_index halvings.old node ≡ 0 }
    requires path { NoneOutFrom halvings.old node }
    ensures consistent { IsConsistent halvings.new }
    ensures out { TakesOut halvings.old halvings.new node }
{
    halvings[node] = OUT;
    rise(halvings, node);
}

/// Puts a node back that is out.
pub fn put_back(halvings: &mut [u8], node: usize)
    requires positive { 1 ≤ node }
    requires in_tree { node < length halvings.old }
    requires even { length halvings.old % 2 ≡ 0 }
    requires consistent { IsConsistent halvings.old }
    requires is_out { slice_index halvings.old node ≡ 26 }
    ensures consistent { IsConsistent halvings.new }
    ensures out { PutsBack halvings.old halvings.new node }
{
    halvings[node] = 0;
    rise(halvings, node);
}
