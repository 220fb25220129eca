//! Laws of where fields stand.

ghost use Rattle.jv_link_cache.specs.Laws.{WordsAreInherited};

use jv_meaning_typing::layout_extends;
use jv_meaning_world::{above_by_ways, above_is_transitive};

/// An object keeps an inherited field at the word where an object of the class that declares it does (own).
pub fn words_are_inherited()
    ensures { WordsAreInherited }
{
    above_by_ways();
    above_is_transitive();
    layout_extends();
}
