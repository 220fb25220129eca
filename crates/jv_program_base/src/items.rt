//! What stands at a place.
ghost use Rattle.std.specs.Prelude.{◌≡◌, ◌<◌, Some, length, slice_get, string_bytes};
ghost use Rattle.std.specs.Option.{option_map};
ghost use Rattle.jv_limits.specs.Bytes.{bytes_of};

use jv_meaning_typing::Verdict;

/// The bytes at a place.
pub fn bytes_at<'a>(list: &[&'a [u8]], place: usize) -> &'a [u8]
    requires { place < length list.now }
    ensures { option_map bytes_of (slice_get list.now place) ≡ Some result.now }
{
    list[place]
}

/// The verdict at a place.
pub fn verdict_at(verdicts: &[Verdict], place: usize) -> Verdict
    requires { place < length verdicts.now }
    ensures { slice_get verdicts.now place ≡ Some result }
{
    verdicts[place]
}

/// The text at a place.
pub fn text_at(texts: &[String], place: usize) -> &str
    requires { place < length texts.now }
    ensures { option_map string_bytes (slice_get texts.now place) ≡ Some result.now }
{
    &texts[place]
}
