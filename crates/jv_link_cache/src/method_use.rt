//! A method as a step calls it.

ghost use Rattle.std.specs.Prelude.{◌≡◌, Some};
ghost use Rattle.jv_link.specs.Seen.{IsMethodTarget};
ghost use Rattle.jv_link_cache.specs.MethodUses.{IsMethodUse};

use crate::bodies::argument_words;
use jv_link::{MethodTarget, method_at};
use jv_loader::ClassTable;
use jv_text::is_init;

/// A method as a step calls it: what its constant resolves to, its access flags, whether it is an `<init>`, and how many words its
/// arguments have, the receiver's among them.
#[derive(Clone, Copy)]
pub struct MethodUse {
    pub target: MethodTarget,
    pub access_flags: u16,
    pub is_init: bool,
    pub argument_words: usize,
}

/// A target, as a step calls it.
pub(crate) fn method_called(table: &ClassTable<'_>, target: MethodTarget) -> MethodUse
    requires { IsMethodTarget table.now target }
    ensures called { IsMethodUse table.now result }
    ensures target { result.target ≡ target }
{
    let method = method_at(table, target.declared);
    MethodUse {
        target,
        access_flags: method.access_flags,
        is_init: is_init(method.name),
        argument_words: argument_words(&method),
    }
}
