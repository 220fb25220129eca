//! The name of the main class, as the file `main` gives it.
ghost use Rattle.std.specs.Prelude.{◌≡◌};
ghost use Rattle.jv_program_base.specs.MainName.{main_name_of};

/// The text less one LF, or CR LF, at its end.
pub fn main_name_of(text: &[u8]) -> &[u8]
    ensures { result.now ≡ main_name_of text.now }
{
    if text.ends_with(b"\r\n") {
        &text[..text.len() - 2]
    } else if text.ends_with(b"\n") {
        &text[..text.len() - 1]
    } else {
        text
    }
}
