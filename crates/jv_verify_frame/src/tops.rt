//! Types that hold nothing from a place on.

ghost use Rattle.std.specs.Prelude.{◌≡◌, ◌≤◌, ℕ, List, length, replicate};
ghost use Rattle.jv_stackmap.specs.declared.verification.VerificationTypeOf.TheVariants as types;
ghost use Rattle.jv_verify_frame.specs.Inside.Tops.{AreTops};
ghost use Rattle.jv_verify_types.specs.Numbered.{Item};

use jv_stackmap::VerificationTypeOf;
use jv_verify_types::Item;

/// The place, or the count where that is less.
pub(crate) fn least(used: usize, count: usize) -> usize
    ensures within { result ≤ count }
    ensures tops { (items : List Item) → length items ≡ count → AreTops used items → AreTops result items }
{
    if used < count { used } else { count }
}

/// Makes those before a place top, or all where there are fewer.
pub(crate) fn make_tops(items: &mut [Item], used: usize)
    requires { AreTops used items.old }
    ensures tops { items.new ≡ replicate (length items.old) types.Top }
    ensures same { length items.new ≡ length items.old }
{
    let mut left = least(used, items.len());
    while left > 0 {
        left -= 1;
        items[left] = VerificationTypeOf::Top;
    }
}
