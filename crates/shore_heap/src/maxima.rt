//! A tree of maxima in a slice. Behind place 0, which nothing uses, come the inner nodes and then as many leaves and one more: node k has
//! the children 2k and 2k + 1, and an inner node is the greater of its two.
ghost use Rattle.std.specs.Prelude.{◌≡◌, ◌≢◌, ◌+◌, ◌-◌, ◌*◌, ◌<◌, ◌≤◌, ℕ, slice_index};
ghost use Rattle.shore_heap.specs.Maxima.{IsMaxima, Reaches};

/// Puts a number into a leaf, and makes the nodes above it the greater of their two again.
pub fn put(tree: &mut [u16], leaves: usize, leaf: usize, number: u16)
    requires tree { IsMaxima tree.old leaves }
    requires leaf { leaf < leaves }
    ensures tree { IsMaxima tree.new leaves }
    ensures here { slice_index tree.new (leaves + leaf) ≡ number }
    ensures others { (other : ℕ) → leaves ≤ other → other ≢ leaves + leaf → slice_index tree.new other ≡ slice_index tree.old other }
{
    let mut node = leaves + leaf;
    tree[node] = number;
    while node > 1 {
        node /= 2;
        let left = tree[2 * node];
        let right = tree[2 * node + 1];
        let greater = if left < right { right } else { left };
        // Nothing changes further up then.
        if tree[node] == greater {
            return;
        }
        tree[node] = greater;
    }
}

/// The first leaf from one on with a greater number, which the last leaf has.
pub fn first_above(tree: &[u16], leaves: usize, leaf: usize, number: u16) -> usize
    requires tree { IsMaxima tree.now leaves }
    requires leaf { leaf < leaves }
    requires last { number < slice_index tree.now (2 * leaves - 1) }
    ensures from { leaf ≤ result }
    ensures there { result < leaves }
    ensures above { number < slice_index tree.now (leaves + result) }
    ensures passed { (other : ℕ) → leaf ≤ other → other < result → slice_index tree.now (leaves + other) ≤ number }
{
    let node = climb(tree, leaves, leaves + leaf, number);
    descend(tree, leaves, leaves + leaf, node, number) - leaves
}

// A node with a greater number, so that no leaf from the first on and before its own has one.
fn climb(tree: &[u16], leaves: usize, first: usize, number: u16) -> usize
    requires tree { IsMaxima tree.now leaves }
    requires first { leaves ≤ first }
    requires there { first < 2 * leaves }
    requires last { number < slice_index tree.now (2 * leaves - 1) }
    ensures reaches { Reaches tree.now leaves first number result }
    ensures above { number < slice_index tree.now result }
{
    let mut node = first;
    while tree[node] <= number {
        let right = node / 2 * 2 + 1;
        if tree[right] > number {
            return right;
        }
        node = node / 2 + 1;
    }
    node
}

// The first leaf of a node that has a greater number.
fn descend(tree: &[u16], leaves: usize, first: usize, node: usize, number: u16) -> usize
    requires tree { IsMaxima tree.now leaves }
    requires first { leaves ≤ first }
    requires last { number < slice_index tree.now (2 * leaves - 1) }
    requires reaches { Reaches tree.now leaves first number node }
    requires above { number < slice_index tree.now node }
    ensures from { first ≤ result }
    ensures there { result < 2 * leaves }
    ensures above { number < slice_index tree.now result }
    ensures passed { (leaf : ℕ) → first ≤ leaf → leaf < result → slice_index tree.now leaf ≤ number }
{
    let mut node = node;
    while node < leaves {
        node = 2 * node;
        if tree[node] <= number {
            node += 1;
        }
    }
    node
}
