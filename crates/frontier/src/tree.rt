// A tree of keys: 512 leaves, and above them each place has the lesser of the two keys below it, so that place 1 has
// the least of all.
ghost use Rattle.std.specs.Prelude.{◌≡◌, ◌+◌, ◌<◌, ◌≤◌, get_or};
ghost use Rattle.frontier.specs.Tree.{key_of, pick_of, Mended, Rekeyed};

// The key of a leaf without a node: 4294967295 * 2^20. The key of every label is less.
pub const FAR: u64 = 4503599626321920;

// Labels are ordered as their keys: by length, then by arc count, then by node.
pub fn key(l: u32, k: u32, at: usize) -> u64
    requires { at < 512 }
    ensures { result ≡ key_of l k at }
{
    l as u64 * 1048576 + k as u64 * 1024 + (at as u64 + 1)
}

// Gives leaf `at` any key, and mends the places above it until one has the lesser key already.
pub fn put(tree: &mut [u64; 1024], at: usize, x: u64)
    requires { (at < 512) × Mended tree.old }
    ensures { Rekeyed tree.old at x tree.new }
{
    let mut i = 512 + at;
    tree[i] = x;
    // the place above has half the number, so no range counts the turns
    while 1 < i {
        i = i / 2;
        let y = tree[2 * i].min(tree[2 * i + 1]);
        if tree[i] == y {
            return;
        }
        tree[i] = y;
    }
}

// Gives leaf `at` a key no greater than its own: each place above it gets that key until one has no greater already.
pub fn lower(tree: &mut [u64; 1024], at: usize, x: u64)
    requires { (at < 512) × (x ≤ get_or tree.old (512 + at) 0) × Mended tree.old }
    ensures { Rekeyed tree.old at x tree.new }
{
    let mut i = 512 + at;
    tree[i] = x;
    // the place above has half the number, so no range counts the turns
    while 1 < i {
        i = i / 2;
        if tree[i] <= x {
            return;
        }
        tree[i] = x;
    }
}

// The node of the least key, if any has one.
pub fn nearest(tree: &[u64; 1024]) -> Option<usize>
    ensures { result ≡ pick_of (get_or tree.now 1 0) }
{
    let x = tree[1];
    if FAR <= x {
        return None;
    }
    Some((x % 1024) as usize)
}
