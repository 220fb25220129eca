//! Where code goes beyond the profile.

ghost use Rattle.std.specs.Prelude.{◌≡◌, ℕ, IfNone, IfSome};
ghost use Rattle.jv_class_structure.specs.Seen.{seen_method};
ghost use Rattle.jv_beyond.specs.Beyond.{IsCodeBeyond};

use jv_class_structure::Method;
use jv_code::unsupported_at;

/// The offset of the first instruction of a method's code that the profile leaves out.
pub(crate) fn offset_in(method: &Method<'_>) -> Option<usize>
    ensures found { IfSome result (λ offset. IsCodeBeyond (seen_method method.now) offset) }
    ensures none { IfNone result ((offset : ℕ) → IsCodeBeyond (seen_method method.now) offset → ⊥) }
{
    match method.code() {
        Some(body) => unsupported_at(body.code),
        None => None,
    }
}
