//! Texts with their hashes.

ghost use Rattle.std.specs.Prelude.{◌≡◌};
ghost use Rattle.jv_classes.specs.Texts.{text_hash};

use std::hash::{BuildHasher, DefaultHasher, Hasher, RandomState};
use std::marker::Model;

/// A number for the hashes of texts that a stranger cannot know, by the state.
pub fn seed_of(state: RandomState) -> u64 {
    let hasher = state.build_hasher();
    hasher.finish()
}

/// The hash of a text under a seed.
pub fn text_hash(seed: u64, bytes: &[u8]) -> u64
    ensures { result ≡ text_hash seed bytes.now }
{
    let mut hasher = DefaultHasher::new();
    hasher.write_u64(seed);
    hasher.write(bytes);
    hasher.finish()
}

/// A text with its hash under a seed, so that it is hashed once and looked up in many tables. In contracts it is the text.
pub struct Text<'a> {
    bytes: &'a [u8],
    seed: u64,
    hash: u64,
}

impl<'a> Model for Text<'a> {
    ghost use Rattle.std.specs.Prelude.{◌≡◌, ℕ, List};
    ghost use Rattle.jv_classes.specs.Texts.{text_hash};

    ghost Value = { List ℕ };

    ghost view = { λ t. t.bytes.now };

    ghost invariant = { λ t. t.hash ≡ text_hash t.seed t.bytes.now };
}

impl Drop for Text<'_> {
    fn drop(self) {
        let Text {
            bytes: _,
            seed: _,
            hash: _,
        } = self;
    }
}

impl<'a> Text<'a> {
    /// A text, hashed under a seed.
    pub fn new(seed: u64, bytes: &'a [u8]) -> Text<'a>
        ensures { result ≡ bytes.now }
    {
        let hash = text_hash(seed, bytes);
        Text { bytes, seed, hash }
    }

    /// A text whose hash is known.
    pub fn known(seed: u64, hash: u64, bytes: &'a [u8]) -> Text<'a>
        requires { hash ≡ text_hash seed bytes.now }
        ensures { result ≡ bytes.now }
    {
        Text { bytes, seed, hash }
    }

    /// The text.
    #[inline]
    pub fn bytes(&self) -> &'a [u8]
        ensures { result.now ≡ self.now }
    {
        self.bytes
    }

    /// Its hash under a seed, known where the seed is the text's own.
    #[inline]
    pub fn hash_under(&self, seed: u64) -> u64
        ensures { result ≡ text_hash seed self.now }
    {
        if self.seed == seed {
            self.hash
        } else {
            text_hash(seed, self.bytes)
        }
    }
}
