//! Tables of texts, names and descriptors (JVMS 4.2 to 4.4.7).

use jv_text::{
    Base, DescFault, Element, FieldType, MethodType, TextFault, decode, field_type, is_class_name,
    is_member_name, is_method_name, is_text, method_shape, method_type,
};
use std::alloc::{AllocError, Global};

/// A text, and its units.
static TEXTS: [(&[u8], &[u16]); 8] = [
    (b"", &[]),
    (b"Hi", &[72, 105]),
    (b"\x7f", &[0x7f]),
    (b"\xc0\x80", &[0]),
    (b"\xc2\x80\xdf\xbf", &[0x80, 0x7ff]),
    (b"\xe0\xa0\x80\xef\xbf\xbf", &[0x800, 0xffff]),
    // A lone surrogate.
    (b"\xed\xa0\x80", &[0xd800]),
    // U+1F600, as its two surrogates.
    (b"\xed\xa0\xbd\xed\xb8\x80", &[0xd83d, 0xde00]),
];

/// Whether bytes are a text of these units.
fn has_units(alloc: Global, bytes: &[u8], units: &[u16]) -> bool {
    match decode(alloc, bytes) {
        Ok(found) => found.as_slice() == units && is_text(bytes),
        Err(_) => false,
    }
}

#[test]
fn texts(rt: HostRuntime) {
    for (bytes, units) in &TEXTS {
        assert!(rt; has_units(rt.alloc(), bytes, units), "{units:?}");
    }
}

/// Whether bytes are refused as a text.
fn is_no_text(alloc: Global, bytes: &[u8]) -> bool {
    matches!(decode(alloc, bytes), Err(TextFault::BadText)) && !is_text(bytes)
}

/// Whether bytes are refused as a method's descriptor, with parameters and without.
fn is_no_method_type(alloc: Global, bytes: &[u8]) -> bool {
    matches!(method_type(alloc, bytes), Err(DescFault::BadDescriptor))
        && method_shape(bytes).is_err()
}

/// What bytes are refused as.
#[derive(Clone, Copy)]
enum Kind {
    Text,
    FieldType,
    MethodType,
}

static REFUSED: [(Kind, &[u8]); 41] = [
    // A zero byte.
    (Kind::Text, b"\x00"),
    (Kind::Text, b"a\x00b"),
    // U+0001 and U+007F in two bytes.
    (Kind::Text, b"\xc0\x81"),
    (Kind::Text, b"\xc1\xbf"),
    // U+0000, U+0001 and U+07FF in three bytes.
    (Kind::Text, b"\xe0\x80\x80"),
    (Kind::Text, b"\xe0\x80\x81"),
    (Kind::Text, b"\xe0\x9f\xbf"),
    // U+1F600 in four bytes.
    (Kind::Text, b"\xf0\x9f\x98\x80"),
    // Cut sequences.
    (Kind::Text, b"\xc3"),
    (Kind::Text, b"\xe2\x82"),
    (Kind::Text, b"\xc3a"),
    (Kind::Text, b"\xe2\x82a"),
    // A second byte alone, and a byte of no sequence.
    (Kind::Text, b"\x80"),
    (Kind::Text, b"\xff"),
    (Kind::FieldType, b""),
    (Kind::FieldType, b"V"),
    (Kind::FieldType, b"[V"),
    (Kind::FieldType, b"["),
    (Kind::FieldType, b"L"),
    (Kind::FieldType, b"L;"),
    (Kind::FieldType, b"La"),
    (Kind::FieldType, b"La//b;"),
    (Kind::FieldType, b"La.b;"),
    (Kind::FieldType, b"La;b"),
    (Kind::FieldType, b"II"),
    (Kind::FieldType, b"A"),
    (Kind::FieldType, b"()V"),
    (Kind::MethodType, b""),
    (Kind::MethodType, b"("),
    (Kind::MethodType, b"()"),
    (Kind::MethodType, b"(V)V"),
    (Kind::MethodType, b"()VV"),
    (Kind::MethodType, b"()V;"),
    (Kind::MethodType, b"()II"),
    (Kind::MethodType, b"()[V"),
    (Kind::MethodType, b")V"),
    (Kind::MethodType, b"I"),
    (Kind::MethodType, b"(I"),
    (Kind::MethodType, b"(L;)V"),
    (Kind::MethodType, b"(La//b;)V"),
    (Kind::MethodType, b"(I)La//b;"),
];

/// Whether bytes are refused as something of that kind.
fn is_refused(alloc: Global, kind: Kind, bytes: &[u8]) -> bool {
    match kind {
        Kind::Text => is_no_text(alloc, bytes),
        Kind::FieldType => field_type(bytes).is_err(),
        Kind::MethodType => is_no_method_type(alloc, bytes),
    }
}

#[test]
fn refused(rt: HostRuntime) {
    for (kind, bytes) in &REFUSED {
        assert!(rt; is_refused(rt.alloc(), *kind, bytes), "{bytes:?}");
    }
}

/// A name, and whether it is one of a class, a field, a method.
static NAMES: [(&[u8], bool, bool, bool); 14] = [
    (b"java/lang/Object", true, false, false),
    (b"Main", true, true, true),
    (b"", false, false, false),
    (b"a//b", false, false, false),
    (b"/a", false, false, false),
    (b"a/", false, false, false),
    (b"a.b", false, false, false),
    (b"a;b", false, false, false),
    (b"[I", false, false, false),
    (b"<init>", true, true, true),
    (b"<clinit>", true, true, true),
    (b"<init", true, true, false),
    (b"a>b", true, true, false),
    (b"<init>/a", true, false, false),
];

/// Whether a name is one of a class, a field, a method.
fn is_name(bytes: &[u8], of_class: bool, of_field: bool, of_method: bool) -> bool {
    is_class_name(bytes) == of_class
        && is_member_name(bytes) == of_field
        && is_method_name(bytes) == of_method
}

#[test]
fn names(rt: HostRuntime) {
    for (bytes, of_class, of_field, of_method) in &NAMES {
        assert!(rt;
            is_name(bytes, *of_class, *of_field, *of_method),
            "{bytes:?}"
        );
    }
}

/// A base type as Java spells it, or a class.
fn name_of(element: Element<&[u8]>) -> &[u8] {
    match element {
        Element::Base(Base::Byte) => b"byte",
        Element::Base(Base::Char) => b"char",
        Element::Base(Base::Double) => b"double",
        Element::Base(Base::Float) => b"float",
        Element::Base(Base::Int) => b"int",
        Element::Base(Base::Long) => b"long",
        Element::Base(Base::Short) => b"short",
        Element::Base(Base::Boolean) => b"boolean",
        Element::Class(name) => name,
    }
}

/// Whether a type has so many dimensions and this base type or class.
fn is_type(found: FieldType<'_>, dimensions: u8, name: &[u8]) -> bool {
    found.dimensions == dimensions && name_of(found.element) == name
}

/// Whether a descriptor is that of a type.
fn is_field_type(bytes: &[u8], dimensions: u8, name: &[u8]) -> bool {
    match field_type(bytes) {
        Ok(found) => is_type(found, dimensions, name),
        Err(_) => false,
    }
}

/// A descriptor, its dimensions, and its base type or class.
static FIELD_TYPES: [(&[u8], u8, &[u8]); 10] = [
    (b"B", 0, b"byte"),
    (b"C", 0, b"char"),
    (b"D", 0, b"double"),
    (b"F", 0, b"float"),
    (b"I", 0, b"int"),
    (b"J", 0, b"long"),
    (b"S", 0, b"short"),
    (b"Z", 0, b"boolean"),
    // A class named F, and no float.
    (b"LF;", 0, b"F"),
    (b"[[Ljava/lang/Object;", 2, b"java/lang/Object"),
];

#[test]
fn field_types(rt: HostRuntime) {
    for (bytes, dimensions, name) in &FIELD_TYPES {
        assert!(rt; is_field_type(bytes, *dimensions, name), "{bytes:?}");
    }
}

#[test]
fn most_dimensions(rt: HostRuntime) {
    // An array of long with 256 dimensions, and behind its first byte one with 255.
    let mut bytes = [b'['; 257];
    bytes[256] = b'J';
    assert!(rt; is_field_type(&bytes[1..], 255, b"long") && field_type(&bytes).is_err());
}

/// Whether a method's parameter at a place is of that type.
fn is_parameter(found: &MethodType<'_>, place: usize, dimensions: u8, name: &[u8]) -> bool {
    match found.parameters.get(place) {
        Some(parameter) => is_type(*parameter, dimensions, name),
        None => false,
    }
}

/// Whether these are the parameters and the result of `(I[JLjava/lang/String;D)[Z`.
fn is_of_four(found: &MethodType<'_>) -> bool {
    found.parameters.len() == 4
        && is_parameter(found, 0, 0, b"int")
        && is_parameter(found, 1, 1, b"long")
        && is_parameter(found, 2, 0, b"java/lang/String")
        && is_parameter(found, 3, 0, b"double")
        && matches!(found.result, Some(t) if is_type(t, 1, b"boolean"))
}

#[test]
fn parameters(rt: HostRuntime) {
    let is_right = match method_type(rt.alloc(), b"(I[JLjava/lang/String;D)[Z") {
        Ok(found) => is_of_four(&found),
        Err(_) => false,
    };
    assert!(rt; is_right);
}

/// The dimensions of a method's result.
fn dimensions_of(returned: Option<FieldType<'_>>) -> Option<u8> {
    match returned {
        Some(found) => Some(found.dimensions),
        None => None,
    }
}

/// Whether a method has so many slots of parameters, and a result of these dimensions.
fn has_shape(bytes: &[u8], slots: u8, dimensions: Option<u8>) -> bool {
    match method_shape(bytes) {
        Ok(shape) => shape.slots == slots && dimensions_of(shape.result) == dimensions,
        Err(_) => false,
    }
}

/// Whether a method has so many parameters, and a result of these dimensions.
fn has_types(alloc: Global, bytes: &[u8], parameters: usize, dimensions: Option<u8>) -> bool {
    match method_type(alloc, bytes) {
        Ok(found) => {
            found.parameters.len() == parameters && dimensions_of(found.result) == dimensions
        }
        Err(_) => false,
    }
}

/// A descriptor, the slots of its parameters, their number, and the dimensions of its result.
static METHOD_TYPES: [(&[u8], u8, usize, Option<u8>); 6] = [
    (b"()V", 0, 0, None),
    (b"(I[JLjava/lang/String;D)[Z", 5, 4, Some(1)),
    (b"(JD)La;", 4, 2, Some(0)),
    (b"([J[D)J", 2, 2, Some(0)),
    (b"(BCFISZ)V", 6, 6, None),
    (b"(LF;)[[J", 1, 1, Some(2)),
];

#[test]
fn method_types(rt: HostRuntime) {
    for (bytes, slots, parameters, dimensions) in &METHOD_TYPES {
        assert!(rt;
            has_shape(bytes, *slots, *dimensions)
                && has_types(rt.alloc(), bytes, *parameters, *dimensions),
            "{bytes:?}"
        );
    }
}

/// A descriptor with 127 times J, which are 254 slots, and the text behind them.
fn with_longs(alloc: Global, behind: &[u8]) -> Result<Vec<u8>, AllocError> {
    let mut text = vec![in alloc; b'J'; 128]?;
    text[0] = b'(';
    text.extend_from_slice(behind)?;
    Ok(text)
}

/// What stands behind 254 slots, and whether these are 128 parameters in 255 slots, or refused.
static BEHIND_LONGS: [(&[u8], bool); 4] = [
    (b"I)V", true),
    (b"J)V", false),
    (b"II)V", false),
    (b"D)V", false),
];

/// Whether such a descriptor is taken or refused.
fn is_right_behind_longs(alloc: Global, behind: &[u8], fits: bool) -> bool {
    let Ok(text) = with_longs(alloc, behind) else {
        return false;
    };
    if fits {
        has_shape(&text, 255, None) && has_types(alloc, &text, 128, None)
    } else {
        is_no_method_type(alloc, &text)
    }
}

#[test]
fn most_slots(rt: HostRuntime) {
    for (behind, fits) in &BEHIND_LONGS {
        assert!(rt;
            is_right_behind_longs(rt.alloc(), behind, *fits),
            "{behind:?}"
        );
    }
}
