// Which calls of an object in memory fail.
ghost use Rattle.std.specs.Prelude.{◌≡◌};
ghost use Rattle.cp_io.specs.Memory.{fails_next};

// Whether the next call, after so many, is in the list. Calls are numbered from 1.
pub fn is_next_listed(fails: &[u32], calls: u32) -> bool
    ensures { result ≡ fails_next fails.now calls }
{
    let number = u64::from(calls) + 1;
    fails.iter().any(|listed| u64::from(*listed) == number)
}
