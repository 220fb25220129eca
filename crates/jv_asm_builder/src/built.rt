//! Methods that a class builder keeps (JVMS 4.6, 4.7.3).

ghost use Rattle.std.specs.Prelude.{◌≡◌, ◌++◌, OnOk, IsTrue, map};
ghost use Rattle.jv_class_structure.specs.Structure.{method_bytes, method_fits};
ghost use Rattle.jv_asm.specs.Description.{described_attribute, described_method_attribute, described_method};
ghost use Rattle.jv_asm_builder.specs.Inside.Methods.{built_map, coded, with_code, with_attributes, built_method};

use jv_asm::{
    AttributeDescription, CodeDescription, Handler, Method, MethodAttributeDescription,
    MethodDescription,
};
use std::alloc::AllocError;

/// A StackMapTable's contents, behind the index of its name.
#[derive(Drop)]
pub(crate) struct StackMap {
    pub(crate) name_index: u16,
    pub(crate) contents: Vec<u8>,
}

/// What a Code attribute holds, behind the index of its name.
#[derive(Drop)]
pub(crate) struct BuiltCode {
    pub(crate) name_index: u16,
    pub(crate) max_stack: u16,
    pub(crate) max_locals: u16,
    pub(crate) code: Vec<u8>,
    pub(crate) exception_table: Vec<Handler>,
    pub(crate) stack_map: Option<StackMap>,
}

/// A method, with its code if it has some.
#[derive(Drop)]
pub(crate) struct BuiltMethod {
    pub(crate) access_flags: u16,
    pub(crate) name_index: u16,
    pub(crate) descriptor_index: u16,
    pub(crate) code: Option<BuiltCode>,
}

impl StackMap {
    fn attribute(&self) -> AttributeDescription<'_>
        ensures { described_attribute result ≡ built_map self.now }
    {
        AttributeDescription {
            attribute_name_index: self.name_index,
            info: &self.contents,
        }
    }
}

impl BuiltCode {
    /// The Code attribute, with these attributes of its own.
    fn attribute<'b>(
        &'b self,
        attributes: &'b [AttributeDescription<'b>],
    ) -> MethodAttributeDescription<'b>
        ensures { described_method_attribute result ≡ coded self.now (map described_attribute attributes.now) }
    {
        MethodAttributeDescription::Code(
            self.name_index,
            CodeDescription {
                max_stack: self.max_stack,
                max_locals: self.max_locals,
                code: &self.code,
                exception_table: &self.exception_table,
                attributes,
            },
        )
    }

    fn put(&self, out: &mut Vec<u8>, method: &BuiltMethod) -> Result<(), AllocError>
        requires { IsTrue (method_fits (with_code method.now self.now)) }
        ensures { OnOk result (out.new.items ≡ out.old.items ++ method_bytes (with_code method.now self.now)) }
    {
        match &self.stack_map {
            Some(map) => method
                .description(&[self.attribute(&[map.attribute()])])
                .put(out),
            None => method.description(&[self.attribute(&[])]).put(out),
        }
    }

    fn fits_fields(&self, method: &BuiltMethod) -> bool
        ensures { result ≡ method_fits (with_code method.now self.now) }
    {
        match &self.stack_map {
            Some(map) => method
                .description(&[self.attribute(&[map.attribute()])])
                .fits_fields(),
            None => method.description(&[self.attribute(&[])]).fits_fields(),
        }
    }
}

impl BuiltMethod {
    /// The method, with these attributes.
    fn description<'b>(
        &self,
        attributes: &'b [MethodAttributeDescription<'b>],
    ) -> MethodDescription<'b>
        ensures { described_method result ≡ with_attributes self.now (map described_method_attribute attributes.now) }
    {
        MethodDescription {
            access_flags: self.access_flags,
            name_index: self.name_index,
            descriptor_index: self.descriptor_index,
            attributes,
        }
    }
}

impl Method for BuiltMethod {
    ghost method = { built_method };

    fn put(&self, out: &mut Vec<u8>) -> Result<(), AllocError> {
        match &self.code {
            Some(code) => code.put(out, self),
            None => self.description(&[]).put(out),
        }
    }

    fn fits_fields(&self) -> bool {
        match &self.code {
            Some(code) => code.fits_fields(self),
            None => self.description(&[]).fits_fields(),
        }
    }
}
