//! Numbers that are joined: a forest in which each number points to a smaller one, or is a root.
ghost use Rattle.std.specs.Prelude.{◌≡◌, ℕ, ◌<◌, ◌≤◌, length};
ghost use Rattle.std.specs.List.{sum};
ghost use Rattle.life_classes.specs.Forest.{IsJoined, moved, root};

/// The root of a number.
#[inline(always)]
pub fn root(forest: &[usize], number: usize) -> usize
    ensures value { result ≡ root forest.now number }
    ensures less { result ≤ number }
{
    let mut at = number;
    while at < forest.len() {
        let next = forest[at];
        if next >= at {
            return at;
        }
        at = next;
    }
    at
}

/// Points a number at its root.
fn shorten(forest: &mut Vec<usize>, number: usize)
    requires { number < length forest.old.items }
    ensures long { length forest.new.items ≡ length forest.old.items }
    ensures same { (k : ℕ) → root forest.new.items k ≡ root forest.old.items k }
    ensures less { sum forest.new.items ≤ sum forest.old.items }
{
    let to = root(forest.as_slice(), number);
    if to < number {
        forest[number] = to;
    }
}

/// Points a root at a smaller one.
fn put(forest: &mut Vec<usize>, high: usize, low: usize)
    requires within { high < length forest.old.items }
    requires less { low < high }
    requires high { root forest.old.items high ≡ high }
    requires low { root forest.old.items low ≡ low }
    ensures long { length forest.new.items ≡ length forest.old.items }
    ensures moved { (k : ℕ) → root forest.new.items k ≡ moved high low (root forest.old.items k) }
    ensures less { sum forest.new.items < sum forest.old.items }
{
    forest[high] = low;
}

/// Joins two numbers. False if they were joined already.
#[cold]
pub fn join(forest: &mut Vec<usize>, one: usize, other: usize) -> bool
    requires { one < length forest.old.items × other < length forest.old.items }
    ensures { IsJoined forest.old.items forest.new.items one other result }
{
    let first = root(forest.as_slice(), one);
    let second = root(forest.as_slice(), other);
    if first == second {
        return false;
    }
    if first < second {
        put(forest, second, first);
    } else {
        put(forest, first, second);
    }
    shorten(forest, one);
    shorten(forest, other);
    true
}
