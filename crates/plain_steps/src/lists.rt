//! Lists of copies.
ghost use Rattle.std.specs.Prelude.{◌≡◌, ◌∷◌, [], ◌++◌, Bool, filter, IfOk, OnOk, if◌then◌else◌};
ghost use Rattle.std.specs.Ordering.{is_lt, nat_cmp};
ghost use Rattle.std.specs.Cmp.Lexicographic.{slice_cmp};

use crate::copies::Copies;
use std::alloc::{AllocError, Global};
use vol_model::Listed;

/// Whether these bytes stand before those.
pub fn is_less(bytes: &[u8], others: &[u8]) -> bool
    ensures { result ≡ is_lt (slice_cmp nat_cmp bytes.now others.now) }
{
    bytes.cmp(others).is_lt()
}

/// Items, with copies of others after them.
pub fn with_copies<T: Copies>(
    alloc: Global,
    mut before: Listed<T>,
    items: &[T],
) -> Result<Listed<T>, AllocError>
    ensures { IfOk result (λ after. after ≡ before ++ items.now) }
{
    for item in items {
        before.push(item.copy(alloc)?)?;
    }
    Ok(before)
}

/// A test of items.
pub trait Test<T> {
    ghost passes: { Self → T → Bool };

    /// Whether an item passes it.
    fn passes(&self, item: &T) -> bool
        ensures { result ≡ passes self.now item.now };
}

/// Items, with copies after them of those others that pass a test.
pub fn where_passed<T: Copies, P: Test<T>>(
    alloc: Global,
    mut before: Listed<T>,
    items: &[T],
    test: &P,
) -> Result<Listed<T>, AllocError>
    ensures { IfOk result (λ after. after ≡ before ++ filter (P.passes test.now) items.now) }
{
    for item in items {
        push_passed(alloc, &mut before, item, test)?;
    }
    Ok(before)
}

// Puts a copy of an item after others, if it passes a test.
fn push_passed<T: Copies, P: Test<T>>(
    alloc: Global,
    before: &mut Listed<T>,
    item: &T,
    test: &P,
) -> Result<(), AllocError>
    ensures { OnOk result (before.new ≡ before.old ++ (if P.passes test.now item.now then item.now ∷ [] else [])) }
{
    if test.passes(item) {
        before.push(item.copy(alloc)?)?;
    }
    Ok(())
}
