//! Fields, methods and their code (JVMS 4.5, 4.6, 4.7.3).

ghost use Rattle.std.specs.Prelude.{◌≡◌, ◌++◌, ◌<◌, ◌&&◌, OnOk, IsTrue, length, map};
ghost use Rattle.std.specs.List.{list_all};
ghost use Rattle.jv_format.specs.Format.{half, quad};
ghost use Rattle.jv_class_structure.specs.Structure.{FieldInfo, MethodInfo, MethodAttribute, contents_bytes, table_bytes, table_fits, attribute_bytes, attribute_fits, code_bytes, code_fits, method_attribute_bytes, method_attribute_fits, field_bytes, field_fits, method_bytes, method_fits};
ghost use Rattle.jv_asm.specs.Description.{described_attribute, described_code, described_method_attribute, described_field, described_method};

use crate::attribute::{are_handlers, attributes_length, contents_fit, put_contents, put_handlers};
use crate::description::{
    AttributeDescription, CodeDescription, FieldDescription, MethodAttributeDescription,
    MethodDescription,
};
use crate::part::{
    Part, half_fits, halves_fit, put_half, put_quad, put_table, put_three, table_fits,
};
use std::alloc::AllocError;

/// What stands before the tables of a Code attribute.
fn put_instructions(out: &mut Vec<u8>, code: &CodeDescription<'_>) -> Result<(), AllocError>
    requires { length code.now.code.now < 4294967296 }
    ensures { OnOk result (out.new.items ≡ out.old.items
        ++ half.spelling code.now.max_stack ++ half.spelling code.now.max_locals ++ contents_bytes code.now.code.now) }
{
    put_half(out, code.max_stack)?;
    put_half(out, code.max_locals)?;
    put_contents(out, code.code)
}

/// What a Code attribute holds.
fn put_code(out: &mut Vec<u8>, code: &CodeDescription<'_>) -> Result<(), AllocError>
    requires { IsTrue (code_fits (described_code code.now)) }
    ensures { OnOk result (out.new.items ≡ out.old.items ++ code_bytes (described_code code.now)) }
{
    put_instructions(out, code)?;
    put_handlers(out, code.exception_table)?;
    put_table(out, code.attributes)
}

fn code_fits(code: &CodeDescription<'_>) -> bool
    ensures { result ≡ code_fits (described_code code.now) }
{
    halves_fit(code.max_stack, code.max_locals)
        && contents_fit(code.code)
        && are_handlers(code.exception_table)
        && table_fits(code.attributes)
}

/// How many bytes a Code attribute holds.
fn code_length(code: &CodeDescription<'_>) -> u64
    requires { IsTrue (code_fits (described_code code.now)) }
    ensures { result ≡ length (code_bytes (described_code code.now)) }
{
    12 + code.code.len() as u64
        + 8 * code.exception_table.len() as u64
        + attributes_length(code.attributes)
}

/// Whether the numbers of a Code attribute fit, that of its bytes among them.
pub(crate) fn whole_code_fits(code: &CodeDescription<'_>) -> bool
    ensures { result ≡ (quad.fits (length (code_bytes (described_code code.now))) && code_fits (described_code code.now)) }
{
    code_fits(code) && code_length(code) < 4_294_967_296
}

/// A Code attribute behind its name and its length.
pub(crate) fn put_named_code(
    out: &mut Vec<u8>,
    name: u16,
    code: &CodeDescription<'_>,
) -> Result<(), AllocError>
    requires length { IsTrue (quad.fits (length (code_bytes (described_code code.now)))) }
    requires fits { IsTrue (code_fits (described_code code.now)) }
    ensures { OnOk result (out.new.items ≡ out.old.items
        ++ (half.spelling name ++ contents_bytes (code_bytes (described_code code.now)))) }
{
    put_half(out, name)?;
    put_quad(out, code_length(code) as u32)?;
    put_code(out, code)
}

impl Part for MethodAttributeDescription<'_> {
    ghost Value = { MethodAttribute };

    ghost view = { described_method_attribute };

    ghost bytes = { method_attribute_bytes };

    ghost fits = { method_attribute_fits };

    fn put(&self, out: &mut Vec<u8>) -> Result<(), AllocError> {
        match self {
            MethodAttributeDescription::Code(name, code) => put_named_code(out, *name, code),
            MethodAttributeDescription::Other(attribute) => attribute.put(out),
        }
    }

    fn fits_fields(&self) -> bool {
        match self {
            MethodAttributeDescription::Code(name, code) => {
                half_fits(*name) && whole_code_fits(code)
            }
            MethodAttributeDescription::Other(attribute) => attribute.fits_fields(),
        }
    }
}

/// A field or a method: its flags, its name and its descriptor, and its attributes.
fn put_member<A: Part>(
    out: &mut Vec<u8>,
    access_flags: u16,
    name_index: u16,
    descriptor_index: u16,
    attributes: &[A],
) -> Result<(), AllocError>
    requires { IsTrue (table_fits A.fits (map A.view attributes.now)) }
    ensures { OnOk result (out.new.items ≡ out.old.items
        ++ (half.spelling access_flags ++ half.spelling name_index ++ half.spelling descriptor_index
        ++ table_bytes A.bytes (map A.view attributes.now))) }
{
    put_three(out, access_flags, name_index, descriptor_index)?;
    put_table(out, attributes)
}

impl Part for FieldDescription<'_> {
    ghost Value = { FieldInfo };

    ghost view = { described_field };

    ghost bytes = { field_bytes };

    ghost fits = { field_fits };

    fn put(&self, out: &mut Vec<u8>) -> Result<(), AllocError> {
        put_member(
            out,
            self.access_flags,
            self.name_index,
            self.descriptor_index,
            self.attributes,
        )
    }

    fn fits_fields(&self) -> bool {
        halves_fit(self.access_flags, self.name_index)
            && half_fits(self.descriptor_index)
            && table_fits(self.attributes)
    }
}

/// A method of a class file, however it is kept.
pub trait Method {
    /// What it is in a class structure (4.6).
    ghost method: { Self → MethodInfo };

    /// Writes the method behind what there is.
    fn put(&self, out: &mut Vec<u8>) -> Result<(), AllocError>
        requires { IsTrue (method_fits (method self.now)) }
        ensures { OnOk result (out.new.items ≡ out.old.items ++ method_bytes (method self.now)) };

    /// Whether its counts and lengths fit their fields.
    fn fits_fields(&self) -> bool
        ensures { result ≡ method_fits (method self.now) };
}

impl Method for MethodDescription<'_> {
    ghost method = { described_method };

    fn put(&self, out: &mut Vec<u8>) -> Result<(), AllocError> {
        put_member(
            out,
            self.access_flags,
            self.name_index,
            self.descriptor_index,
            self.attributes,
        )
    }

    fn fits_fields(&self) -> bool {
        halves_fit(self.access_flags, self.name_index)
            && half_fits(self.descriptor_index)
            && table_fits(self.attributes)
    }
}

/// How many methods there are, and the methods.
pub(crate) fn put_methods<M: Method>(out: &mut Vec<u8>, methods: &[M]) -> Result<(), AllocError>
    requires { IsTrue (table_fits method_fits (map M.method methods.now)) }
    ensures { OnOk result (out.new.items ≡ out.old.items ++ table_bytes method_bytes (map M.method methods.now)) }
{
    put_half(out, methods.len() as u16)?;
    for method in methods {
        method.put(out)?;
    }
    Ok(())
}

fn all_methods_fit<M: Method>(methods: &[M]) -> bool
    ensures { result ≡ list_all method_fits (map M.method methods.now) }
{
    for method in methods {
        if !method.fits_fields() {
            return false;
        }
    }
    true
}

pub(crate) fn methods_fit<M: Method>(methods: &[M]) -> bool
    ensures { result ≡ table_fits method_fits (map M.method methods.now) }
{
    methods.len() < 65536 && all_methods_fit(methods)
}
