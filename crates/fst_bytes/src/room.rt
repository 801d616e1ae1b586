//! For how many things space is reserved.

ghost use Rattle.std.specs.Prelude.{◌≡◌, ◌<◌, ◌≤◌, ◌*◌, ◌/◌, min};

/// How many things there can be in the bytes that are left, where each has at least so many bytes: at most a stated
/// count.
pub fn most_that_fit(count: usize, left: usize, least: usize) -> usize
    requires { 0 < least }
    ensures value { result ≡ min count (left / least) }
    ensures fits { least * result ≤ left }
{
    count.min(left / least)
}
