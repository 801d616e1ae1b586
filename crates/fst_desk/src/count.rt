// The counts of a desk, which never fall.
ghost use Rattle.std.specs.Prelude.{◌≡◌};
ghost use Rattle.fst_desk.specs.Seen.{raised};

// A count after one more, which stays at its type's end.
pub(crate) fn raise(count: u64) -> u64
    ensures { result ≡ raised count }
{
    if count < u64::MAX { count + 1 } else { count }
}
