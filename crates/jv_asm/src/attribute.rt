//! Attributes (JVMS 4.7).

ghost use Rattle.std.specs.Prelude.{◌≡◌, ◌++◌, ◌<◌, ◌&&◌, ◌^◌, OnOk, IsTrue, length, map};
ghost use Rattle.std.specs.List.{flat_map};
ghost use Rattle.jv_format.specs.Format.{half, quad};
ghost use Rattle.jv_class_structure.specs.Structure.{AttributeInfo, contents_bytes, table_bytes, table_fits, attribute_bytes, attribute_fits};
ghost use Rattle.jv_format.specs.declared.handlers.Handler.{Handler};
ghost use Rattle.jv_format.specs.Handlers.{handler_bytes, handler_fits};
ghost use Rattle.jv_asm.specs.Description.{described_attribute};

use crate::description::AttributeDescription;
use crate::part::{
    Part, half_fits, halves_fit, put_half, put_quad, put_table, put_three, table_fits,
};
use jv_format::Handler;
use std::alloc::AllocError;

/// Contents behind their length.
pub(crate) fn put_contents(out: &mut Vec<u8>, contents: &[u8]) -> Result<(), AllocError>
    requires { length contents.now < 4294967296 }
    ensures { OnOk result (out.new.items ≡ out.old.items ++ contents_bytes contents.now) }
{
    put_quad(out, contents.len() as u32)?;
    out.extend_from_slice(contents)
}

/// Whether the length of contents fits four bytes.
pub(crate) fn contents_fit(contents: &[u8]) -> bool
    ensures { result ≡ quad.fits (length contents.now) }
{
    contents.len() < 4_294_967_296
}

impl Part for AttributeDescription<'_> {
    ghost Value = { AttributeInfo };

    ghost view = { described_attribute };

    ghost bytes = { attribute_bytes };

    ghost fits = { attribute_fits };

    fn put(&self, out: &mut Vec<u8>) -> Result<(), AllocError> {
        put_half(out, self.attribute_name_index)?;
        put_contents(out, self.info)
    }

    fn fits_fields(&self) -> bool {
        half_fits(self.attribute_name_index) && contents_fit(self.info)
    }
}

impl Part for Handler {
    ghost Value = { Handler };

    ghost view = { λ h. h };

    ghost bytes = { handler_bytes };

    ghost fits = { handler_fits };

    fn put(&self, out: &mut Vec<u8>) -> Result<(), AllocError> {
        put_three(out, self.start_pc, self.end_pc, self.handler_pc)?;
        put_half(out, self.catch_type)
    }

    fn fits_fields(&self) -> bool {
        halves_fit(self.start_pc, self.end_pc) && halves_fit(self.handler_pc, self.catch_type)
    }
}

/// How many handlers there are, and the handlers.
pub(crate) fn put_handlers(out: &mut Vec<u8>, handlers: &[Handler]) -> Result<(), AllocError>
    requires { IsTrue (table_fits handler_fits handlers.now) }
    ensures { OnOk result (out.new.items ≡ out.old.items ++ table_bytes handler_bytes handlers.now) }
{
    put_table(out, handlers)
}

/// Whether there are so few handlers that their number fits.
pub(crate) fn are_handlers(handlers: &[Handler]) -> bool
    ensures { result ≡ table_fits handler_fits handlers.now }
{
    table_fits(handlers)
}

/// How many bytes attributes have, their count aside.
pub(crate) fn attributes_length(attributes: &[AttributeDescription<'_>]) -> u64
    requires { IsTrue (table_fits attribute_fits (map described_attribute attributes.now)) }
    ensures length { result ≡ length (flat_map attribute_bytes (map described_attribute attributes.now)) }
    ensures small { result < 2 ^ 60 }
{
    let mut total = 0;
    for attribute in attributes {
        total += 6 + attribute.info.len() as u64;
    }
    total
}
