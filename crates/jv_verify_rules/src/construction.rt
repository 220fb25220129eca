//! Calls of `<init>` (JVMS 4.10.1.9).

ghost use Rattle.std.specs.Prelude.{◌≡◌, ℕ, List};
ghost use Rattle.jv_meaning_typing.specs.MemberRules.{flag_behind};
ghost use Rattle.jv_verify_types.specs.Typed.{typed};
ghost use Rattle.jv_verify_types.specs.Numbered.{item_words, with_flag};
ghost use Rattle.jv_verify_rules.specs.Objects.{TakesBelowArguments, Constructs};

use crate::stack::take_arguments;
use jv_stackmap::VerificationTypeOf;
use jv_verify_frame::TypeFrame;
use jv_verify_types::{Argument, Item, TypeNames};

/// Takes the arguments of `<init>`, the first first, and the object below them, and gives this; `None` where the
/// arguments don't flow to these types, or nothing is below them.
pub fn take_constructed(
    types: &TypeNames<'_, '_>,
    frame: &mut TypeFrame,
    arguments: &[Argument],
) -> Option<Item>
    ensures { TakesBelowArguments types.now arguments.now frame.old frame.new result }
{
    if take_arguments(types, frame, arguments) {
        frame.pop()
    } else {
        None
    }
}

/// `this` is initialized from now on, if it is the object.
fn clear_flag_of(frame: &mut TypeFrame, object: Item)
    ensures { (names : List (List ℕ)) → frame.new ≡ with_flag (flag_behind (typed names object) frame.old.flag_this_uninit) frame.old }
{
    match object {
        VerificationTypeOf::UninitializedThis => frame.clear_flag(),
        _ => {}
    }
}

/// Gives all copies of the object that `<init>` was called on the type of its class, of one word. The object itself has
/// been taken from the stack; where it is `this`, the frame's flag is cleared.
pub fn construct(frame: &mut TypeFrame, object: Item, by: Item)
    requires { item_words by ≡ 1 }
    ensures { Constructs object by frame.old frame.new }
{
    frame.replace_locals(object, by);
    frame.replace_stack(object, by);
    clear_flag_of(frame, object);
}
