//! What is too large.

use jv_asm::{
    AsmFault, AttributeDescription, CodeDescription, Constant, Description, FieldDescription,
    Handler, Item, MethodAttributeDescription, MethodDescription, write_class, write_code,
};
use std::alloc::Global;

const EMPTY: Description<'static> = Description {
    minor_version: 0,
    major_version: 52,
    constant_pool: &[],
    access_flags: 0,
    this_class: 0,
    super_class: 0,
    interfaces: &[],
    fields: &[],
    methods: &[],
    attributes: &[],
};

const ATTRIBUTE: AttributeDescription<'static> = AttributeDescription {
    attribute_name_index: 1,
    info: &[],
};

const FIELD: FieldDescription<'static> = FieldDescription {
    access_flags: 0,
    name_index: 1,
    descriptor_index: 1,
    attributes: &[],
};

const METHOD: MethodDescription<'static> = MethodDescription {
    access_flags: 0,
    name_index: 1,
    descriptor_index: 1,
    attributes: &[],
};

const HANDLER: Handler = Handler {
    start_pc: 0,
    end_pc: 1,
    handler_pc: 1,
    catch_type: 0,
};

const CODE: CodeDescription<'static> = CodeDescription {
    max_stack: 0,
    max_locals: 0,
    code: &[],
    exception_table: &[],
    attributes: &[],
};

/// The size of the file, and 0 where it is too large; no answer where memory was refused.
fn size(alloc: Global, description: &Description<'_>) -> Option<usize> {
    match write_class(alloc, description) {
        Ok(file) => Some(file.len()),
        Err(AsmFault::TooLarge) => Some(0),
        Err(_) => None,
    }
}

/// These constants and methods, and nothing else.
fn described<'d>(
    constant_pool: &'d [Constant<&'d [u8]>],
    methods: &'d [MethodDescription<'d>],
) -> Description<'d> {
    Description {
        minor_version: 0,
        major_version: 52,
        constant_pool,
        access_flags: 0,
        this_class: 0,
        super_class: 0,
        interfaces: &[],
        fields: &[],
        methods,
        attributes: &[],
    }
}

/// The size of a file with so many of a constant.
fn size_with_constants(alloc: Global, constant: Constant<&[u8]>, count: usize) -> Option<usize> {
    let Ok(constants) = vec![in alloc; constant; count] else {
        return None;
    };
    size(alloc, &described(&constants, &[]))
}

/// The size of a file with a text of so many bytes.
fn size_with_text(alloc: Global, length: usize) -> Option<usize> {
    match vec![in alloc; b'a'; length] {
        Ok(text) => size_with_constants(alloc, Constant::Utf8(&text), 1),
        Err(_) => None,
    }
}

/// The size of a file with so many interfaces.
fn size_with_interfaces(alloc: Global, count: usize) -> Option<usize> {
    let Ok(interfaces) = vec![in alloc; 1u16; count] else {
        return None;
    };
    let description = Description {
        interfaces: &interfaces,
        ..EMPTY
    };
    size(alloc, &description)
}

/// The size of a file with so many fields.
fn size_with_fields(alloc: Global, count: usize) -> Option<usize> {
    let Ok(fields) = vec![in alloc; FIELD; count] else {
        return None;
    };
    let description = Description {
        fields: &fields,
        ..EMPTY
    };
    size(alloc, &description)
}

/// The size of a file with so many methods.
fn size_with_methods(alloc: Global, count: usize) -> Option<usize> {
    let Ok(methods) = vec![in alloc; METHOD; count] else {
        return None;
    };
    let description = Description {
        methods: &methods,
        ..EMPTY
    };
    size(alloc, &description)
}

/// The size of a file with so many attributes.
fn size_with_attributes(alloc: Global, count: usize) -> Option<usize> {
    let Ok(attributes) = vec![in alloc; ATTRIBUTE; count] else {
        return None;
    };
    let description = Description {
        attributes: &attributes,
        ..EMPTY
    };
    size(alloc, &description)
}

/// The size of a file with one method that has this code.
fn size_with_code(alloc: Global, code: CodeDescription<'_>) -> Option<usize> {
    let attributes = [MethodAttributeDescription::Code(1, code)];
    let methods = [MethodDescription {
        access_flags: 0,
        name_index: 1,
        descriptor_index: 1,
        attributes: &attributes,
    }];
    size(alloc, &described(&[], &methods))
}

/// The size of a file with one method that has so many handlers.
fn size_with_handlers(alloc: Global, count: usize) -> Option<usize> {
    let Ok(handlers) = vec![in alloc; HANDLER; count] else {
        return None;
    };
    let code = CodeDescription {
        exception_table: &handlers,
        ..CODE
    };
    size_with_code(alloc, code)
}

/// The size of a file with one method whose code has so many attributes.
fn size_with_attributes_of_code(alloc: Global, count: usize) -> Option<usize> {
    let Ok(attributes) = vec![in alloc; ATTRIBUTE; count] else {
        return None;
    };
    let code = CodeDescription {
        attributes: &attributes,
        ..CODE
    };
    size_with_code(alloc, code)
}

/// The size of code, and 0 where it is too large; no answer where memory was refused.
fn size_of_code(alloc: Global, items: &[Item<'_>]) -> Option<usize> {
    match write_code(alloc, items) {
        Ok(code) => Some(code.len()),
        Err(AsmFault::TooLarge) => Some(0),
        Err(_) => None,
    }
}

/// The size of so many `nop`.
fn size_of_nops(alloc: Global, count: usize) -> Option<usize> {
    match vec![in alloc; Item::Plain(0); count] {
        Ok(items) => size_of_code(alloc, &items),
        Err(_) => None,
    }
}

/// The size of a `tableswitch` with so many distances.
fn size_of_table(alloc: Global, high: i32, count: usize) -> Option<usize> {
    match vec![in alloc; 0i32; count] {
        Ok(offsets) => size_of_code(alloc, &[Item::Tableswitch(0, 0, high, &offsets)]),
        Err(_) => None,
    }
}

/// The size of a `lookupswitch` with so many pairs.
fn size_of_pairs(alloc: Global, count: usize) -> Option<usize> {
    match vec![in alloc; (0i32, 0i32); count] {
        Ok(pairs) => size_of_code(alloc, &[Item::Lookupswitch(0, &pairs)]),
        Err(_) => None,
    }
}

/// What there is much of.
#[derive(Clone, Copy, Debug)]
enum Part {
    Integers,
    Longs,
    Text,
    Interfaces,
    Fields,
    Methods,
    Attributes,
    Handlers,
    AttributesOfCode,
    Nops,
    Distances,
    Pairs,
}

/// The size of what is written, and 0 where it is too large; no answer where memory was refused.
fn size_with(alloc: Global, part: Part, count: usize) -> Option<usize> {
    match part {
        Part::Integers => size_with_constants(alloc, Constant::Integer(7), count),
        Part::Longs => size_with_constants(alloc, Constant::Long(7, 7), count),
        Part::Text => size_with_text(alloc, count),
        Part::Interfaces => size_with_interfaces(alloc, count),
        Part::Fields => size_with_fields(alloc, count),
        Part::Methods => size_with_methods(alloc, count),
        Part::Attributes => size_with_attributes(alloc, count),
        Part::Handlers => size_with_handlers(alloc, count),
        Part::AttributesOfCode => size_with_attributes_of_code(alloc, count),
        Part::Nops => size_of_nops(alloc, count),
        Part::Distances => size_of_table(alloc, 65535, count),
        Part::Pairs => size_of_pairs(alloc, count),
    }
}

/// What there is much of, how much, and the size.
static SIZES: [(Part, usize, usize); 23] = [
    (Part::Integers, 65535, 0),
    (Part::Integers, 65534, 24 + 5 * 65534),
    // A Long takes two indices.
    (Part::Longs, 32768, 0),
    (Part::Longs, 32767, 24 + 9 * 32767),
    (Part::Text, 65536, 0),
    (Part::Text, 65535, 24 + 3 + 65535),
    (Part::Interfaces, 65536, 0),
    (Part::Interfaces, 65535, 24 + 2 * 65535),
    (Part::Fields, 65536, 0),
    (Part::Fields, 65535, 24 + 8 * 65535),
    (Part::Methods, 65536, 0),
    (Part::Methods, 65535, 24 + 8 * 65535),
    (Part::Attributes, 65536, 0),
    (Part::Attributes, 65535, 24 + 6 * 65535),
    (Part::Handlers, 65536, 0),
    (Part::Handlers, 65535, 50 + 8 * 65535),
    (Part::AttributesOfCode, 65536, 0),
    (Part::AttributesOfCode, 65535, 50 + 6 * 65535),
    (Part::Nops, 65536, 0),
    (Part::Nops, 65535, 65535),
    (Part::Distances, 65536, 0),
    (Part::Pairs, 8191, 0),
    (Part::Pairs, 8190, 12 + 8 * 8190),
];

#[test]
fn sizes(rt: HostRuntime) {
    for (part, count, wanted) in &SIZES {
        let found = size_with(rt.alloc(), *part, *count);
        assert!(rt; found == Some(*wanted), "{part:?}, {count}");
    }
}
