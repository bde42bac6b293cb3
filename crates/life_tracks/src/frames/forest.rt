//! Joined numbers: a forest in which each number points to a smaller one, or is a root.
ghost use Rattle.std.specs.Prelude.{◌≡◌, ℕ, ◌<◌, ◌≤◌, IsTrue, length};
ghost use Rattle.std.specs.List.{sum};
ghost use Rattle.life_classes.specs.Forest.{moved, root};
ghost use Rattle.life_tracks.specs.Frames.Ties.{AreSameRoots, IsUnited};

/// The root of a number. On the way, every second number is made to point to the one after the next, so that later
/// walks are short.
pub fn find(forest: &mut Vec<usize>, number: usize) -> usize
    ensures value { result ≡ root forest.old.items number }
    ensures same { AreSameRoots forest.old.items forest.new.items }
    ensures within { number < length forest.old.items → result < length forest.old.items }
{
    let mut at = number;
    while at < forest.len() {
        let next = forest[at];
        if next >= at {
            return at;
        }
        let further = forest[next];
        if further >= next {
            return next;
        }
        forest[at] = further;
        at = further;
    }
    at
}

/// Points a root at a smaller one.
fn put(forest: &mut Vec<usize>, high: usize, low: usize)
    requires within { high < length forest.old.items }
    requires less { low < high }
    requires high { root forest.old.items high ≡ high }
    requires low { root forest.old.items low ≡ low }
    ensures long { length forest.new.items ≡ length forest.old.items }
    ensures moved { (k : ℕ) → root forest.new.items k ≡ moved high low (root forest.old.items k) }
    ensures less { sum forest.new.items < sum forest.old.items }
{
    forest[high] = low;
}

/// True if two numbers point to the same number, which is not greater than either.
#[inline(always)]
fn are_siblings(forest: &[usize], one: usize, other: usize) -> bool
    requires { one < length forest.now × other < length forest.now }
    ensures { IsTrue result → root forest.now one ≡ root forest.now other }
{
    let next = forest[one];
    let other_next = forest[other];
    if next > one {
        return false;
    }
    if other_next > other {
        return false;
    }
    if next != other_next {
        return false;
    }
    true
}

/// Joins two numbers. Usually both point to the same number already.
pub fn join(forest: &mut Vec<usize>, one: usize, other: usize)
    requires { one < length forest.old.items × other < length forest.old.items }
    ensures { IsUnited forest.old.items forest.new.items one other }
{
    if are_siblings(forest.as_slice(), one, other) {
        return;
    }
    let first = find(forest, one);
    let second = find(forest, other);
    if first < second {
        put(forest, second, first);
    } else if second < first {
        put(forest, first, second);
    }
}

/// Points each number at its root.
pub fn flatten(forest: &mut Vec<usize>)
    ensures { AreSameRoots forest.old.items forest.new.items }
{
    for n in 0..forest.len() {
        find(forest, n);
    }
}
