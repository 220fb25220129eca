//! A constant pool in the making (JVMS 4.4), in which each constant stands once.

ghost use Rattle.std.specs.Prelude.{◌≡◌, ◌+◌, ◌++◌, ◌↔◌, List, [], ◌∷◌, Err, IfOk, OnErr, IsTrue, is_ok, length, map, if◌then◌else◌};
ghost use Rattle.jv_pool.specs.Constants.{Entry, entries_of, pool_count, constant_fits, pool_fits};
ghost use Rattle.jv_pool.specs.Seen.{seen};
ghost use Rattle.jv_asm_builder.specs.Added.{IsNew, IsAdded, HasRoom};
ghost use Rattle.jv_asm_builder.specs.Inside.Pooled.{holding, key_holding, IsIndexFound, IsPooled};
ghost use Rattle.jv_asm.specs.declared.fault.AsmFault.TheVariants.{TooLarge};

use jv_asm::{AsmFault, constant_fits, entries};
use jv_pool::Constant;
use std::alloc::{AllocError, Global};
use std::collections::BTreeMap;
use std::marker::Model;

/// A constant's tag, its two numbers and its text, with 0 and no bytes for what it does not have.
type Key<'a> = (u8, u32, u32, &'a [u8]);

fn key<'a>(constant: Constant<&'a [u8]>) -> Key<'a>
    ensures { key_holding result ≡ holding (seen constant.entry) }
{
    match constant {
        Constant::Utf8(text) => (1, 0, 0, text),
        Constant::Integer(bits) => (3, bits, 0, &[]),
        Constant::Float(bits) => (4, bits, 0, &[]),
        Constant::Long(high, low) => (5, high, low, &[]),
        Constant::Double(high, low) => (6, high, low, &[]),
        Constant::Class(name) => (7, u32::from(name), 0, &[]),
        Constant::String(text) => (8, u32::from(text), 0, &[]),
        Constant::Fieldref(class, member) => (9, u32::from(class), u32::from(member), &[]),
        Constant::Methodref(class, member) => (10, u32::from(class), u32::from(member), &[]),
        Constant::InterfaceMethodref(class, member) => {
            (11, u32::from(class), u32::from(member), &[])
        }
        Constant::NameAndType(name, descriptor) => {
            (12, u32::from(name), u32::from(descriptor), &[])
        }
        Constant::MethodHandle(kind, index) => (15, u32::from(kind), u32::from(index), &[]),
        Constant::MethodType(descriptor) => (16, u32::from(descriptor), 0, &[]),
        Constant::InvokeDynamic(bootstrap, member) => {
            (18, u32::from(bootstrap), u32::from(member), &[])
        }
    }
}

#[derive(Drop)]
pub(crate) struct PoolBuilder<'a> {
    constants: Vec<Constant<&'a [u8]>>,
    indices: BTreeMap<Key<'a>, u16>,
    /// One more than the entries of the table (4.1).
    count: u16,
}

impl<'a> Model for PoolBuilder<'a> {
    ghost Value = { List Entry };

    ghost view = { λ p. map seen p.constants.items };

    ghost invariant = { λ p. IsPooled (map seen p.constants.items) p.indices p.count };
}

impl<'a> PoolBuilder<'a> {
    pub(crate) fn new(alloc: Global) -> PoolBuilder<'a>
        ensures { result ≡ [] }
    {
        PoolBuilder {
            constants: Vec::new(alloc),
            indices: BTreeMap::new(alloc),
            count: 1,
        }
    }

    /// The index of a constant that is there.
    fn found(&self, constant: Constant<&'a [u8]>) -> Option<u16>
        ensures { IsIndexFound self.now (seen constant.entry) result }
    {
        self.indices.get(&key(constant)).copied()
    }

    /// Adds a constant that is not there, so that the table has this count.
    fn add(&mut self, constant: Constant<&'a [u8]>, count: u16) -> Result<(), AllocError>
        requires new { IsNew self.old (seen constant) }
        requires count { count ≡ pool_count self.old + length (entries_of (seen constant)) }
        requires fits { IsTrue (constant_fits (seen constant)) }
        ensures { self.new ≡ (if is_ok result then self.old ++ seen constant.entry ∷ [] else self.old) }
    {
        self.constants.reserve(1)?;
        let _ = self.indices.insert(key(constant), self.count)?;
        self.constants.push_reserved(constant);
        self.count = count;
        Ok(())
    }

    /// The index of a constant, which is added where it is not there yet.
    pub(crate) fn constant(&mut self, constant: Constant<&'a [u8]>) -> Result<u16, AsmFault>
        ensures ok { IfOk result (λ index. IsAdded self.old (seen constant.entry) self.new index) }
        ensures fits { IsTrue (pool_fits self.new) }
        ensures refused { OnErr result (self.new ≡ self.old) }
        ensures too_large { (result ≡ Err TooLarge) ↔ ¬ HasRoom (IsAdded self.old (seen constant.entry)) }
    {
        if let Some(index) = self.found(constant) {
            return Ok(index);
        }
        let index = self.count;
        let count = u64::from(index) + entries(&constant);
        if count > 65535 || !constant_fits(&constant) {
            return Err(AsmFault::TooLarge);
        }
        self.add(constant, count as u16)?;
        Ok(index)
    }

    /// The constants in their order.
    pub(crate) fn constants(&self) -> &[Constant<&'a [u8]>]
        ensures { map seen result.now ≡ self.now }
    {
        &self.constants
    }
}
