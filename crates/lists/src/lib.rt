// Copying the first elements of one list over those of another.
#![tactic(auto)]

ghost use Rattle.std.specs.Prelude.{◌≡◌, ◌++◌, ◌≤◌, length, take, drop};

// The first n elements of a list over those of another. Requires: both lists have so many, which whoever copies has checked.
pub fn copy<T: Copy>(to: &mut [T], from: &[T], n: usize)
    requires { (n ≤ length from.now) × (n ≤ length to.old) }
    ensures { to.new ≡ take n from.now ++ drop n to.old }
{
    to[..n].copy_from_slice(&from[..n]);
}
