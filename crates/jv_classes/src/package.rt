//! Packages, by the names of their classes.

ghost use Rattle.std.specs.Prelude.{◌≡◌};
ghost use Rattle.jv_meaning_world.specs.World.{package_of, same_loader};

/// What stands before the last `/` of a name, nothing where there is none.
pub(crate) fn package(name: &[u8]) -> &[u8]
    ensures { result.now ≡ package_of name.now }
{
    let mut end = name.len();
    while end > 0 {
        end -= 1;
        if name[end] == b'/' {
            return &name[..end];
        }
    }
    &name[..0]
}

/// Whether two classes have one loader.
pub(crate) fn is_same_loader(by_system: bool, other_by_system: bool) -> bool
    ensures { result ≡ same_loader by_system other_by_system }
{
    if by_system {
        other_by_system
    } else {
        !other_by_system
    }
}
