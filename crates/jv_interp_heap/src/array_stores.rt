//! References that are stored in arrays (JVMS 6.5, aastore).

ghost use Rattle.std.specs.Prelude.{◌≡◌, ◌<◌, true, false, length};
ghost use Rattle.jv_store.specs.Content.{words_at, written};

use jv_store::Store;

/// A reference is stored at a place of an array's block, if it can stand among its components. Of another one nothing is stored, whatever
/// class, interface or array type they have. Answers whether it was stored.
#[inline(always)]
pub fn store_reference<S: Store>(
    store: &mut S,
    array: u32,
    place: u32,
    value: u32,
    stands: bool,
) -> bool
    requires { place < length (words_at (S.content store.old) array) }
    ensures tells { result ≡ stands }
    ensures stored { stands ≡ true → S.content store.new ≡ written (S.content store.old) array place value }
    ensures refused { stands ≡ false → S.content store.new ≡ S.content store.old }
    ensures room { S.room_left store.new ≡ S.room_left store.old }
{
    if !stands {
        return false;
    }
    store.set(array, place, value);
    true
}
