//! Names and descriptors that rules look for.

ghost use Rattle.std.specs.Prelude.{◌≡◌};
ghost use Rattle.jv_text.specs.Name.{is_array_name, is_init};
ghost use Rattle.jv_class.specs.Rules.{is_object, is_clinit, is_no_arguments_void};

pub(crate) fn is_object(name: &[u8]) -> bool
    ensures { result ≡ is_object name.now }
{
    name == b"java/lang/Object".as_slice()
}

/// Whether a name is that of a class's initialization (JVMS 2.9).
pub fn is_clinit(name: &[u8]) -> bool
    ensures { result ≡ is_clinit name.now }
{
    name == b"<clinit>".as_slice()
}

/// Whether the descriptor is that of a method without parameters and result.
pub(crate) fn is_no_arguments_void(descriptor: &[u8]) -> bool
    ensures { result ≡ is_no_arguments_void descriptor.now }
{
    descriptor == b"()V".as_slice()
}
