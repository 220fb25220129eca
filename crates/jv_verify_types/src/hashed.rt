//! Texts of members with their hashes.

ghost use Rattle.std.specs.Prelude.{◌≡◌, IfSome, Some};
ghost use Rattle.jv_pool.specs.Constants.{utf8_at};
ghost use Rattle.jv_pool.specs.Seen.{seen_member};
ghost use Rattle.jv_classes.specs.Hashes.{AreHashes};
ghost use Rattle.jv_meaning_typing.specs.Operands.{MethodReference};
ghost use Rattle.jv_link.specs.Inside.References.{method_operand_in};
ghost use Rattle.jv_verify_types.specs.Inside.Answered.{AreTextsOf};

use crate::indices::{MemberIndices, method_indices};
use jv_classes::{Text, text_in};
use jv_pool::{MemberName, Pool};

/// The hash of the text at each index of a constant pool, under a seed.
#[derive(Clone, Copy)]
pub(crate) struct PoolHashes<'h> {
    pub(crate) seed: u64,
    pub(crate) hashes: &'h [u64],
}

/// The indices of a method's class, name and descriptor.
pub(crate) fn called_indices(pool: &Pool<'_>, index: u16) -> Option<MemberIndices>
    ensures { (m : MethodReference) → method_operand_in pool.now index ≡ Some m
        → IfSome result (λ i. AreTextsOf pool.now i.name i.descriptor m.member) }
{
    match method_indices(pool, index) {
        Some(indices) => Some(indices.member),
        None => None,
    }
}

/// A text with its hash, where the Utf8 constant at an index is this text.
fn text_with<'n>(hashes: PoolHashes<'_>, pool: &Pool<'n>, index: u16, bytes: &'n [u8]) -> Text<'n>
    requires hashes { AreHashes hashes.seed pool.now hashes.hashes.now }
    requires text { utf8_at pool.now index ≡ Some bytes.now }
    ensures { result ≡ bytes.now }
{
    match pool.utf8_index(index) {
        Some(index) => text_in(hashes.seed, hashes.hashes, pool, index),
        None => Text::new(hashes.seed, bytes),
    }
}

/// A member's name with its hash, which is at hand where the indices of the member's texts are given.
pub(crate) fn name_with<'n>(
    hashes: PoolHashes<'_>,
    pool: &Pool<'n>,
    indices: Option<MemberIndices>,
    member: &MemberName<'n>,
) -> Text<'n>
    requires hashes { AreHashes hashes.seed pool.now hashes.hashes.now }
    requires texts { IfSome indices (λ i. AreTextsOf pool.now i.name i.descriptor (seen_member member.now)) }
    ensures { result ≡ member.now.name.now }
{
    match indices {
        Some(indices) => text_with(hashes, pool, indices.name, member.name),
        None => Text::new(hashes.seed, member.name),
    }
}

/// The same of a member's descriptor.
pub(crate) fn descriptor_with<'n>(
    hashes: PoolHashes<'_>,
    pool: &Pool<'n>,
    indices: Option<MemberIndices>,
    member: &MemberName<'n>,
) -> Text<'n>
    requires hashes { AreHashes hashes.seed pool.now hashes.hashes.now }
    requires texts { IfSome indices (λ i. AreTextsOf pool.now i.name i.descriptor (seen_member member.now)) }
    ensures { result ≡ member.now.descriptor.now }
{
    match indices {
        Some(indices) => text_with(hashes, pool, indices.descriptor, member.descriptor),
        None => Text::new(hashes.seed, member.descriptor),
    }
}
