//! Builds class files, with constants found or added by value.

ghost use Rattle.std.specs.Prelude.{◌≡◌, ◌↔◌, [], Err, IfOk, IfErr, IsOk, OnErr, OnOk, IsTrue, map};
ghost use Rattle.std.specs.Int.{cast_unsigned};
ghost use Rattle.jv_pool.specs.declared.constant.Constant.TheVariants as constants;
ghost use Rattle.jv_pool.specs.Constants.{pool_fits};
ghost use Rattle.jv_pool.specs.Seen.{seen};
ghost use Rattle.jv_class_structure.specs.Structure.{ClassStructure, class_bytes};
ghost use Rattle.jv_asm.specs.Description.{described_attribute, described_field, described_all};
ghost use Rattle.jv_asm.specs.Fits.{IsFit};
ghost use Rattle.jv_asm.specs.declared.fault.AsmFault.TheVariants.{TooLarge};
ghost use Rattle.jv_asm_builder.specs.Added.{IsAdded, IsNamedAdded, AreClassesAdded, AreTextsAdded, IsNameAndTypeAdded, HasRoom, HasRoomForTwo};
ghost use Rattle.jv_asm_builder.specs.Built.{long_constant, with_major, IsGrown, IsNewRoot, IsNewClass, IsInterfaceAdded, IsFieldAdded, IsAttributeAdded, IsBodilessAdded, HasMethodRoom, HasStackMapRoom, IsEnded, IsEndFault, AddsInteger, HasIntegerRoom, AddsTexts, NamesMember, HasNameRoom, AddsMember, MemberFits, BeginsMethod};
ghost use Rattle.jv_asm_builder.specs.Inside.Kept.{contents_kept};
ghost use Rattle.jv_asm_builder.specs.Inside.Methods.{built_method, AddsStackMap};

use crate::built::{BuiltCode, BuiltMethod, StackMap};
use crate::code_builder::CodeBuilder;
use crate::fault::BuilderFault;
use crate::pool_builder::PoolBuilder;
use jv_asm::{AsmFault, AttributeDescription, Description, FieldDescription, write_class_with};
use jv_class_structure::{ClassFlags, FieldFlags, MethodFlags};
use jv_pool::Constant;
use std::alloc::Global;
use std::marker::Model;

/// A method that was begun, with the indices of its names (4.6): its code is added to `code`.
#[derive(Drop)]
pub struct MethodBuilder<'a> {
    access_flags: u16,
    name_index: u16,
    descriptor_index: u16,
    /// The index of the name `Code`.
    code_name_index: u16,
    pub code: CodeBuilder<'a>,
}

/// A class file with the parts that were added so far, of version 52.0 unless `set_major` says
/// another.
///
/// Texts are those of the caller, in modified UTF-8 (4.4.7). Each call that gives an index gives
/// that of a constant which is there already, or adds one.
///
/// # Errors
///
/// A call answers `TooLarge` where a text has more than 65,535 bytes or the pool would have more
/// than 65,534 entries, and `OutOfMemory` where the host's memory was refused. It then changes nothing,
/// but for constants that joined the pool.
#[derive(Drop)]
pub struct ClassBuilder<'a> {
    alloc: Global,
    major: u16,
    pool: PoolBuilder<'a>,
    access_flags: u16,
    this_class: u16,
    super_class: u16,
    interfaces: Vec<u16>,
    fields: Vec<FieldDescription<'a>>,
    methods: Vec<BuiltMethod>,
    attributes: Vec<AttributeDescription<'a>>,
}

impl<'a> Model for ClassBuilder<'a> {
    ghost Value = { ClassStructure };

    ghost view = { λ b. record {
      minor_version = 0;
      major_version = b.major;
      constant_pool = b.pool;
      access_flags = b.access_flags;
      this_class = b.this_class;
      super_class = b.super_class;
      interfaces = b.interfaces.items;
      fields = map described_field b.fields.items;
      methods = map built_method b.methods.items;
      attributes = map described_attribute b.attributes.items;
    } };

    ghost invariant = { λ b. IsTrue (pool_fits b.pool) };
}

impl<'a> ClassBuilder<'a> {
    /// A class with a superclass.
    pub fn new(
        alloc: Global,
        access_flags: ClassFlags,
        name: &'a [u8],
        super_name: &'a [u8],
    ) -> Result<ClassBuilder<'a>, AsmFault>
        ensures ok { IfOk result (λ class. IsNewClass access_flags.0 name.now super_name.now class) }
        ensures too_large { (result ≡ Err TooLarge) → ¬ HasRoomForTwo (AreClassesAdded [] name.now super_name.now) }
    {
        let mut class = ClassBuilder::root(alloc, access_flags, name)?;
        let index = class.class(super_name)?;
        class.super_class = index;
        Ok(class)
    }

    /// A class with no superclass, as java/lang/Object.
    pub fn root(
        alloc: Global,
        access_flags: ClassFlags,
        name: &'a [u8],
    ) -> Result<ClassBuilder<'a>, AsmFault>
        ensures ok { IfOk result (λ class. IsNewRoot access_flags.0 name.now class) }
        ensures too_large { (result ≡ Err TooLarge) → ¬ HasRoom (IsNamedAdded constants.Class [] name.now) }
    {
        let mut class = ClassBuilder {
            alloc,
            major: 52,
            pool: PoolBuilder::new(alloc),
            access_flags: access_flags.0,
            this_class: 0,
            super_class: 0,
            interfaces: Vec::new(alloc),
            fields: Vec::new(alloc),
            methods: Vec::new(alloc),
            attributes: Vec::new(alloc),
        };
        let index = class.class(name)?;
        class.this_class = index;
        Ok(class)
    }

    /// The class file's version is this major version and 0 (4.1).
    pub fn set_major(&mut self, major: u16)
        ensures { self.new ≡ with_major self.old major }
    {
        self.major = major;
    }

    /// The index of a constant.
    pub fn constant(&mut self, constant: Constant<&'a [u8]>) -> Result<u16, AsmFault>
        ensures ok { IfOk result (λ index. IsAdded self.old.constant_pool (seen constant.entry) self.new.constant_pool index) }
        ensures grown { IsGrown self.old self.new }
        ensures refused { OnErr result (self.new ≡ self.old) }
        ensures too_large { (result ≡ Err TooLarge) ↔ ¬ HasRoom (IsAdded self.old.constant_pool (seen constant.entry)) }
    {
        self.pool.constant(constant)
    }

    /// The index of a text (4.4.7).
    pub fn utf8(&mut self, text: &'a [u8]) -> Result<u16, AsmFault>
        ensures ok { IfOk result (λ index. IsAdded self.old.constant_pool (constants.Utf8 text.now) self.new.constant_pool index) }
        ensures grown { IsGrown self.old self.new }
        ensures refused { OnErr result (self.new ≡ self.old) }
        ensures too_large { (result ≡ Err TooLarge) ↔ ¬ HasRoom (IsAdded self.old.constant_pool (constants.Utf8 text.now)) }
    {
        self.constant(Constant::Utf8(text))
    }

    /// The index of an int (4.4.4).
    pub fn integer(&mut self, value: i32) -> Result<u16, AsmFault>
        ensures ok { IfOk result (AddsInteger self.old value self.new) }
        ensures grown { IsGrown self.old self.new }
        ensures refused { OnErr result (self.new ≡ self.old) }
        ensures too_large { (result ≡ Err TooLarge) ↔ ¬ HasIntegerRoom self.old value }
    {
        self.constant(Constant::Integer(value.cast_unsigned()))
    }

    /// The index of a long (4.4.5).
    pub fn long(&mut self, value: i64) -> Result<u16, AsmFault>
        ensures ok { IfOk result (λ index. IsAdded self.old.constant_pool (long_constant value) self.new.constant_pool index) }
        ensures grown { IsGrown self.old self.new }
        ensures refused { OnErr result (self.new ≡ self.old) }
        ensures too_large { (result ≡ Err TooLarge) ↔ ¬ HasRoom (IsAdded self.old.constant_pool (long_constant value)) }
    {
        let bits = value.cast_unsigned();
        self.constant(Constant::Long((bits / 4_294_967_296) as u32, (bits % 4_294_967_296) as u32))
    }

    /// The index of a class or an array type, by its name (4.4.1).
    pub fn class(&mut self, name: &'a [u8]) -> Result<u16, AsmFault>
        ensures ok { IfOk result (λ index. IsNamedAdded constants.Class self.old.constant_pool name.now self.new.constant_pool index) }
        ensures grown { IsGrown self.old self.new }
        ensures too_large { (result ≡ Err TooLarge) → ¬ HasRoom (IsNamedAdded constants.Class self.old.constant_pool name.now) }
    {
        let name = self.utf8(name)?;
        self.constant(Constant::Class(name))
    }

    /// The index of a string (4.4.3).
    pub fn string(&mut self, text: &'a [u8]) -> Result<u16, AsmFault>
        ensures ok { IfOk result (λ index. IsNamedAdded constants.String self.old.constant_pool text.now self.new.constant_pool index) }
        ensures grown { IsGrown self.old self.new }
        ensures too_large { (result ≡ Err TooLarge) → ¬ HasRoom (IsNamedAdded constants.String self.old.constant_pool text.now) }
    {
        let text = self.utf8(text)?;
        self.constant(Constant::String(text))
    }

    /// The indices of two texts.
    fn texts(&mut self, first: &'a [u8], second: &'a [u8]) -> Result<(u16, u16), AsmFault>
        ensures ok { IfOk result (λ indices. AddsTexts self.old first.now second.now self.new indices) }
        ensures grown { IsGrown self.old self.new }
        ensures too_large { (result ≡ Err TooLarge) → ¬ HasRoomForTwo (AreTextsAdded self.old.constant_pool first.now second.now) }
    {
        let first = self.utf8(first)?;
        let second = self.utf8(second)?;
        Ok((first, second))
    }

    /// The index of a name and a descriptor (4.4.6).
    pub fn name_and_type(&mut self, name: &'a [u8], descriptor: &'a [u8]) -> Result<u16, AsmFault>
        ensures ok { IfOk result (λ index. IsNameAndTypeAdded self.old.constant_pool name.now descriptor.now self.new.constant_pool index) }
        ensures grown { IsGrown self.old self.new }
        ensures too_large { (result ≡ Err TooLarge) → ¬ HasRoom (IsNameAndTypeAdded self.old.constant_pool name.now descriptor.now) }
    {
        let (name, descriptor) = self.texts(name, descriptor)?;
        self.constant(Constant::NameAndType(name, descriptor))
    }

    /// The indices of a class and of the name and descriptor of its member.
    fn member(
        &mut self,
        class: &'a [u8],
        name: &'a [u8],
        descriptor: &'a [u8],
    ) -> Result<(u16, u16), AsmFault>
        ensures ok { IfOk result (λ indices. NamesMember self.old class.now name.now descriptor.now self.new indices) }
        ensures grown { IsGrown self.old self.new }
        ensures too_large { (result ≡ Err TooLarge) → ¬ HasNameRoom self.old class.now name.now descriptor.now }
    {
        let class = self.class(class)?;
        let member = self.name_and_type(name, descriptor)?;
        Ok((class, member))
    }

    /// The index of a field (4.4.2).
    pub fn fieldref(
        &mut self,
        class: &'a [u8],
        name: &'a [u8],
        descriptor: &'a [u8],
    ) -> Result<u16, AsmFault>
        ensures ok { IfOk result (AddsMember constants.Fieldref self.old class.now name.now descriptor.now self.new) }
        ensures grown { IsGrown self.old self.new }
        ensures too_large { (result ≡ Err TooLarge) → ¬ MemberFits constants.Fieldref self.old class.now name.now descriptor.now }
    {
        let (class, member) = self.member(class, name, descriptor)?;
        self.constant(Constant::Fieldref(class, member))
    }

    /// The index of a method of a class (4.4.2).
    pub fn methodref(
        &mut self,
        class: &'a [u8],
        name: &'a [u8],
        descriptor: &'a [u8],
    ) -> Result<u16, AsmFault>
        ensures ok { IfOk result (AddsMember constants.Methodref self.old class.now name.now descriptor.now self.new) }
        ensures grown { IsGrown self.old self.new }
        ensures too_large { (result ≡ Err TooLarge) → ¬ MemberFits constants.Methodref self.old class.now name.now descriptor.now }
    {
        let (class, member) = self.member(class, name, descriptor)?;
        self.constant(Constant::Methodref(class, member))
    }

    /// The index of a method of an interface (4.4.2).
    pub fn interface_methodref(
        &mut self,
        class: &'a [u8],
        name: &'a [u8],
        descriptor: &'a [u8],
    ) -> Result<u16, AsmFault>
        ensures ok { IfOk result (AddsMember constants.InterfaceMethodref self.old class.now name.now descriptor.now self.new) }
        ensures grown { IsGrown self.old self.new }
        ensures too_large { (result ≡ Err TooLarge) → ¬ MemberFits constants.InterfaceMethodref self.old class.now name.now descriptor.now }
    {
        let (class, member) = self.member(class, name, descriptor)?;
        self.constant(Constant::InterfaceMethodref(class, member))
    }

    /// Adds a direct superinterface (4.1).
    pub fn interface(&mut self, name: &'a [u8]) -> Result<(), AsmFault>
        ensures ok { OnOk result (IsInterfaceAdded self.old name.now self.new) }
        ensures refused { OnErr result (IsGrown self.old self.new) }
        ensures too_large { (result ≡ Err TooLarge) → ¬ HasRoom (IsNamedAdded constants.Class self.old.constant_pool name.now) }
    {
        let index = self.class(name)?;
        Ok(self.interfaces.push(index)?)
    }

    /// Adds a field with these attributes (4.5).
    pub fn field(
        &mut self,
        access_flags: FieldFlags,
        name: &'a [u8],
        descriptor: &'a [u8],
        attributes: &'a [AttributeDescription<'a>],
    ) -> Result<(), AsmFault>
        ensures ok { OnOk result (IsFieldAdded self.old access_flags.0 name.now descriptor.now (described_all attributes.now) self.new) }
        ensures refused { OnErr result (IsGrown self.old self.new) }
        ensures too_large { (result ≡ Err TooLarge) → ¬ HasRoomForTwo (AreTextsAdded self.old.constant_pool name.now descriptor.now) }
    {
        let (name_index, descriptor_index) = self.texts(name, descriptor)?;
        Ok(
            self.fields.push(FieldDescription {
                access_flags: access_flags.0,
                name_index,
                descriptor_index,
                attributes,
            })?,
        )
    }

    /// Adds an attribute of the class (4.7).
    pub fn attribute(&mut self, name: &'a [u8], info: &'a [u8]) -> Result<(), AsmFault>
        ensures ok { OnOk result (IsAttributeAdded self.old name.now info.now self.new) }
        ensures refused { OnErr result (IsGrown self.old self.new) }
        ensures too_large { (result ≡ Err TooLarge) → ¬ HasRoom (IsAdded self.old.constant_pool (constants.Utf8 name.now)) }
    {
        let attribute_name_index = self.utf8(name)?;
        Ok(
            self.attributes.push(AttributeDescription {
                attribute_name_index,
                info,
            })?,
        )
    }

    /// Adds a method with no code (4.6).
    pub fn bodiless(
        &mut self,
        access_flags: MethodFlags,
        name: &'a [u8],
        descriptor: &'a [u8],
    ) -> Result<(), AsmFault>
        ensures ok { OnOk result (IsBodilessAdded self.old access_flags.0 name.now descriptor.now self.new) }
        ensures refused { OnErr result (IsGrown self.old self.new) }
        ensures too_large { (result ≡ Err TooLarge) → ¬ HasRoomForTwo (AreTextsAdded self.old.constant_pool name.now descriptor.now) }
    {
        let names = self.texts(name, descriptor)?;
        Ok(
            self.methods.push(BuiltMethod {
                access_flags: access_flags.0,
                name_index: names.0,
                descriptor_index: names.1,
                code: None,
            })?,
        )
    }

    /// Begins a method with code (4.6, 4.7.3); [`ClassBuilder::end`] adds it.
    pub fn begin(
        &mut self,
        access_flags: MethodFlags,
        name: &'a [u8],
        descriptor: &'a [u8],
    ) -> Result<MethodBuilder<'a>, AsmFault>
        ensures ok { IfOk result (BeginsMethod self.old access_flags.0 name.now descriptor.now self.new) }
        ensures grown { IsGrown self.old self.new }
        ensures too_large { (result ≡ Err TooLarge) → ¬ HasMethodRoom self.old.constant_pool name.now descriptor.now }
    {
        let (name_index, descriptor_index) = self.texts(name, descriptor)?;
        let code_name_index = self.utf8(b"Code".as_slice())?;
        Ok(MethodBuilder {
            access_flags: access_flags.0,
            name_index,
            descriptor_index,
            code_name_index,
            code: CodeBuilder::new(self.alloc),
        })
    }

    /// The StackMapTable with these contents, if there are some.
    fn stack_map(&mut self, contents: Option<Vec<u8>>) -> Result<Option<StackMap>, AsmFault>
        ensures ok { IfOk result (AddsStackMap self.old (contents_kept contents) self.new) }
        ensures grown { IsGrown self.old self.new }
        ensures too_large { (result ≡ Err TooLarge) → ¬ HasStackMapRoom self.old.constant_pool (contents_kept contents) }
    {
        let Some(contents) = contents else {
            return Ok(None);
        };
        let name_index = self.utf8(b"StackMapTable".as_slice())?;
        Ok(Some(StackMap {
            name_index,
            contents,
        }))
    }

    /// Adds a method that was begun, with its stack and locals as the caller counted them (4.7.3),
    /// and with a StackMapTable where its code has frames.
    ///
    /// # Errors
    ///
    /// Those of [`CodeBuilder::code`], [`CodeBuilder::exception_table`] and
    /// [`CodeBuilder::stack_map_table`] in this order, and then those of the other calls.
    pub fn end(
        &mut self,
        method: MethodBuilder<'a>,
        max_stack: u16,
        max_locals: u16,
    ) -> Result<(), BuilderFault>
        ensures ok { OnOk result (IsEnded self.old method.entry max_stack max_locals self.new) }
        ensures refused { OnErr result (IsGrown self.old self.new) }
        ensures fault { IfErr result (λ fault. IsEndFault self.old method.entry fault) }
    {
        let parts = method.code.parts()?;
        let stack_map = self.stack_map(parts.stack_map_table)?;
        let code = BuiltCode {
            name_index: method.code_name_index,
            max_stack,
            max_locals,
            code: parts.code,
            exception_table: parts.exception_table,
            stack_map,
        };
        Ok(
            self.methods.push(BuiltMethod {
                access_flags: method.access_flags,
                name_index: method.name_index,
                descriptor_index: method.descriptor_index,
                code: Some(code),
            })?,
        )
    }

    /// The bytes of the class file, as `write_class` writes them.
    ///
    /// # Errors
    ///
    /// `TooLarge` exactly where a count or a length does not fit its field, `OutOfMemory` where the host's
    /// memory was refused.
    pub fn finish(&self) -> Result<Vec<u8>, AsmFault>
        ensures ok { IfOk result (λ bytes. bytes.items ≡ class_bytes self.now) }
        ensures fits { IsOk result → IsFit self.now }
        ensures too_large { (result ≡ Err TooLarge) ↔ ¬ IsFit self.now }
    {
        let description = Description {
            minor_version: 0,
            major_version: self.major,
            constant_pool: self.pool.constants(),
            access_flags: self.access_flags,
            this_class: self.this_class,
            super_class: self.super_class,
            interfaces: &self.interfaces,
            fields: &self.fields,
            methods: &[],
            attributes: &self.attributes,
        };
        write_class_with(self.alloc, &description, &self.methods)
    }
}
