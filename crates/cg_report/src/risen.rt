//! How many registers rose at a moment.

ghost use Rattle.std.specs.Prelude.{◌≡◌, ◌≤◌, length};
ghost use Rattle.std.specs.List.{count_by};

/// The registers that are counted in one byte.
const FEW: usize = 128;

/// How many of the registers rose. Each moment counts them all, so a few are counted in one byte: a machine adds sixteen bytes at once.
pub(crate) fn risen(rises: &[bool]) -> u64
    ensures { result ≡ count_by (λ rose. rose) rises.now }
{
    let mut count = 0u64;
    let mut rest = rises;
    'parts: while !rest.is_empty() {
        let (few, more) = rest.split_at(rest.len().min(FEW));
        count += u64::from(risen_of_few(few));
        rest = more;
    }
    count
}

/// How many of a few registers rose.
fn risen_of_few(rises: &[bool]) -> u8
    requires { length rises.now ≤ 128 }
    ensures { result ≡ count_by (λ rose. rose) rises.now }
{
    let mut count = 0u8;
    for rose in rises {
        if *rose {
            count += 1;
        }
    }
    count
}
