//! The texts of a constant pool, of which long ones are hashed once, and short ones where they are asked for.

ghost use Rattle.std.specs.Prelude.{◌≡◌, ◌≢◌, ℕ, List, IfOk, IfSome, IsSome, Some, slice_get};
ghost use Rattle.jv_pool.specs.Constants.{utf8_at};
ghost use Rattle.jv_classes.specs.Texts.{text_hash};
ghost use Rattle.jv_classes.specs.Hashes.{AreHashes};

use crate::text::{Text, text_hash};
use jv_pool::{Pool, Utf8Index};
use std::alloc::{AllocError, Global};

/// A text of more bytes is long. The hash of a short one takes some two hundred instructions, and few are asked for.
const LONG: usize = 64;

/// The hash of the text at an index where that is long, else 0.
fn hash_at(seed: u64, pool: &Pool<'_>, index: u16) -> u64
    ensures { (text : List ℕ) → utf8_at pool.now index ≡ Some text → result ≢ 0 → result ≡ text_hash seed text }
{
    match pool.utf8_index(index) {
        Some(index) => {
            let text = pool.utf8(index);
            if text.len() > LONG {
                text_hash(seed, text)
            } else {
                0
            }
        }
        None => 0,
    }
}

/// The hash of the long text at each index of a constant pool, under a seed; 0 where a short one or none is.
///
/// # Errors
///
/// Where the host had no memory for them.
pub fn pool_hashes(alloc: Global, seed: u64, pool: &Pool<'_>) -> Result<Vec<u64>, AllocError>
    ensures { IfOk result (λ hashes. AreHashes seed pool.now hashes.items) }
{
    let count = pool.count();
    let mut hashes = Vec::with_capacity(alloc, usize::from(count))?;
    for index in 0..count {
        hashes.push(hash_at(seed, pool, index))?;
    }
    Ok(hashes)
}

/// The hash at an index, if one is known.
fn known_hash(hashes: &[u64], index: u16) -> Option<u64>
    ensures known { IfSome result (λ hash. slice_get hashes.now index ≡ Some hash) }
    ensures some { IfSome result (λ hash. hash ≢ 0) }
{
    match hashes.get(usize::from(index)) {
        Some(hash) if *hash != 0 => Some(*hash),
        _ => None,
    }
}

/// The text at an index, with its hash of these.
pub fn text_in<'a>(seed: u64, hashes: &[u64], pool: &Pool<'a>, index: Utf8Index) -> Text<'a>
    requires hashes { AreHashes seed pool.now hashes.now }
    requires text { IsSome (utf8_at pool.now index.0) }
    ensures { utf8_at pool.now index.0 ≡ Some result }
{
    let bytes = pool.utf8(index);
    match known_hash(hashes, index.0) {
        Some(hash) => Text::known(seed, hash, bytes),
        None => Text::new(seed, bytes),
    }
}
