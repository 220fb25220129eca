//! Names of classes, fields and methods (JVMS 4.2).

ghost use Rattle.std.specs.Prelude.{◌≡◌};
ghost use Rattle.std.specs.List.{list_all};
ghost use Rattle.jv_text.specs.Name.{is_name_byte, is_unqualified_name, is_class_name, is_plain_name, is_special_name, is_method_name, begins_with, is_array_name, is_init};

fn is_allowed(byte: u8) -> bool
    ensures { result ≡ is_name_byte byte }
{
    !matches!(byte, b'.' | b';' | b'[' | b'/')
}

fn are_allowed(text: &[u8]) -> bool
    ensures { result ≡ list_all is_name_byte text.now }
{
    text.iter().all(|byte| is_allowed(*byte))
}

/// Whether the bytes are an unqualified name (JVMS 4.2.2), as every field and method has one.
pub fn is_member_name(bytes: &[u8]) -> bool
    ensures { result ≡ is_unqualified_name bytes.now }
{
    !bytes.is_empty() && are_allowed(bytes)
}

/// Whether the bytes are the name of a class or an interface (JVMS 4.2.1).
pub fn is_class_name(bytes: &[u8]) -> bool
    ensures { result ≡ is_class_name bytes.now }
{
    bytes
        .split(|byte| *byte == b'/')
        .all(|part| is_member_name(part))
}

fn is_plain(text: &[u8]) -> bool
    ensures { result ≡ is_plain_name text.now }
{
    text.iter().all(|byte| !matches!(*byte, b'<' | b'>'))
}

pub(crate) fn is_special(text: &[u8]) -> bool
    ensures { result ≡ is_special_name text.now }
{
    text == b"<init>".as_slice() || text == b"<clinit>".as_slice()
}

/// Whether the bytes may name a method (JVMS 4.2.2): an unqualified name that is `<init>` or
/// `<clinit>`, or has no angle bracket.
pub fn is_method_name(bytes: &[u8]) -> bool
    ensures { result ≡ is_method_name bytes.now }
{
    is_member_name(bytes) && (is_special(bytes) || is_plain(bytes))
}

/// Whether the text begins with the byte.
#[inline]
pub fn begins_with(byte: u8, text: &[u8]) -> bool
    ensures { result ≡ begins_with byte text.now }
{
    match text {
        [first, ..] => *first == byte,
        [] => false,
    }
}

/// Whether what a Class constant names is an array type (JVMS 4.4.1).
#[inline]
pub fn is_array_name(name: &[u8]) -> bool
    ensures { result ≡ is_array_name name.now }
{
    begins_with(b'[', name)
}

/// Whether the name is that of an instance initialization method, `<init>` (JVMS 2.9).
#[inline]
pub fn is_init(name: &[u8]) -> bool
    ensures { result ≡ is_init name.now }
{
    name == b"<init>".as_slice()
}
