// The stack's words and what its nodes carry, lent to what works on them: node p from the bottom has W places, from place W * p on.
ghost use Rattle.std.specs.Prelude.{◌≡◌, ◌+◌, ◌*◌, ◌≤◌, get_or, length};
ghost use Rattle.lists.specs.Fill.{fill};
ghost use Rattle.search.specs.Words.Pushing.{Put};

// The places of node p.
pub(crate) fn get<T: Copy, const W: usize>(s: &[T], p: usize) -> [T; W]
    requires { W * p + W ≤ length s.now }
    ensures { (z : T) → result ≡ fill W (λ j. get_or s.now (W * p + j) z) }
{
    <[T; W]>::try_from(&s[W * p..W * p + W]).unwrap()
}

// x is stored at the places of node p.
pub(crate) fn put<T: Copy, const W: usize>(s: &mut [T], p: usize, x: &[T; W])
    requires { W * p + W ≤ length s.old }
    ensures { (z : T) → Put z (W * p) W x.now s.old s.new }
{
    s[W * p..W * p + W].copy_from_slice(x);
}
