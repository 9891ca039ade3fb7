//! Rising lists of numbers.
ghost use Rattle.std.specs.Prelude.{◌≡◌, ℕ, ◌<◌, false, true, Contains, OnOk};
ghost use Rattle.touch_index.specs.Lists.{IsRisingTo};

use crate::range::Range;
use std::alloc::AllocError;

/// Puts a number at the end of a list, unless it stands there.
pub(crate) fn put_last(numbers: &mut Vec<u32>, number: u32) -> Result<(), AllocError>
    requires { IsRisingTo number numbers.old.items }
    ensures rising { IsRisingTo number numbers.new.items }
    ensures keeps { (n : ℕ) → Contains numbers.old.items n → Contains numbers.new.items n }
    ensures there { OnOk result (Contains numbers.new.items number) }
{
    if numbers.as_slice().last().copied() == Some(number) {
        return Ok(());
    }
    numbers.push(number)?;
    Ok(())
}

/// Whether a number of a rising list is above this one and in the range. It looks at them from the end on, at no more than so
/// many, and answers yes where it would have to look at more.
pub(crate) fn may_have_later<R: Range>(
    numbers: &[u32],
    above: u32,
    range: &R,
    looks: &mut u32,
) -> bool
    requires { (most : ℕ) × IsRisingTo most numbers.now }
    ensures { result ≡ false → (n : ℕ) → above < n → R.contains range.now n ≡ true → Contains numbers.now n → ⊥ }
{
    let mut end = numbers.len();
    while end > 0 {
        let number = numbers[end - 1];
        if number <= above {
            return false;
        }
        if *looks == 0 || range.contains(number) {
            return true;
        }
        *looks -= 1;
        end -= 1;
    }
    false
}
