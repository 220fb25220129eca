//! The name that a class is refused for.

ghost use Rattle.std.specs.Prelude.{◌≡◌, Some, IfOk, string_bytes};
ghost use Rattle.jv_explain.specs.Names.{name_text};

use jv_loader::LoadVerdict;
use jv_program_base::Escaped;
use std::alloc::{AllocError, Global};
use std::fmt;

/// The name of a class, and what the class is refused for.
#[derive(Clone, Copy)]
struct ShownName<'a> {
    name: &'a [u8],
    why: LoadVerdict,
}

impl fmt::Display for ShownName<'_> {
    ghost output = { λ shown. Some (name_text shown.why shown.name.now) };

    fn fmt<W: fmt::Write>(&self, f: &mut fmt::Formatter<W>) -> fmt::Result {
        let name = Escaped(self.name);
        match self.why {
            LoadVerdict::Reserved => {
                write!(
                    f,
                    "  class {name} is in java/ or host/, where no guest's class may be\n"
                )
            }
            LoadVerdict::Duplicate => {
                write!(
                    f,
                    "  class {name} is in the library already, or in a file before this one\n"
                )
            }
            _ => Ok(()),
        }
    }
}

/// What is said of the name of a class, where a verdict on it is about that.
pub(crate) fn name_told(alloc: Global, name: &[u8], why: LoadVerdict) -> Result<String, AllocError>
    ensures { IfOk result (λ text. string_bytes text ≡ name_text why name.now) }
{
    let shown = ShownName { name, why };
    shown.to_string(alloc)
}
