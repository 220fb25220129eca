//! The words that an item takes (JVMS 2.6.1).

ghost use Rattle.std.specs.Prelude.{◌≡◌, ℕ, List};
ghost use Rattle.jv_stackmap.specs.Types.{width};
ghost use Rattle.jv_verify_types.specs.Numbered.{item_words};
ghost use Rattle.jv_verify_types.specs.Typed.{typed};

use crate::names::Item;
use jv_stackmap::VerificationTypeOf;

/// The words of an item on the stack or among the local variables (JVMS 4.10.1.2): two of a long, one of every other type.
#[inline(always)]
pub fn words_of(item: Item) -> u16
    ensures number { result ≡ item_words item }
    ensures of_type { (names : List (List ℕ)) → result ≡ width (typed names item) }
{
    match item {
        VerificationTypeOf::Long => 2,
        _ => 1,
    }
}
