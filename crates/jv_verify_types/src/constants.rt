//! The types that the constants of a class say, by index.

ghost use Rattle.std.specs.Prelude.{◌≡◌, ℕ, List, None, get_or, IfOk};
ghost use Rattle.std.specs.Option.{option_map};
ghost use Rattle.jv_meaning_typing.specs.Named.{object_class_type, string_type, throwable_type};
ghost use Rattle.jv_verify_types.specs.Typed.{typed, typed_field};
ghost use Rattle.jv_verify_types.specs.PoolTypes.{typed_call, named_type_at, class_type_at, field_type_at, call_types_at};
ghost use Rattle.jv_verify_types.specs.Inside.KeptTexts.{Item, AreKept, AreItems};

use crate::names::{Item, TypeNames};
use crate::texts::{
    Described, MethodTypes, TextTypes, TypeTable, arguments_of, kept_at, type_table,
};
use crate::value::value_type;
use jv_classes::ClassTable;
use jv_pool::{Constant, Pool};
use jv_stackmap::VerificationTypeOf;
use jv_text::FieldTypeOf;
use std::alloc::{AllocError, Global};
use std::hash::RandomState;
use std::marker::Model;

/// What the constants of a class say as types, with numbers for names. Each answer costs one look at a table.
pub struct ConstantTypes<'t, 'a> {
    names: TypeNames<'t, 'a>,
    constants: &'t Pool<'a>,
    table: TypeTable,
    items: Vec<Option<Item>>,
    string: u32,
    throwable: u32,
}

impl<'t, 'a> Model for ConstantTypes<'t, 'a> {
    ghost use Rattle.jv_verify_types.specs.PoolTypes.{PoolTypes};
    ghost use Rattle.jv_verify_types.specs.Inside.KeptTexts.{AreConstants};

    ghost Value = { PoolTypes };

    ghost view = { λ c. record { types = c.names; pool = c.constants.now } };

    ghost invariant = { λ c. AreConstants c.names.names c.constants.now c.table.arguments.items c.table.texts.items c.items.items
        c.string c.throwable };
}

impl Drop for ConstantTypes<'_, '_> {
    fn drop(self) {
        let ConstantTypes {
            names: _,
            constants: _,
            table: _,
            items: _,
            string: _,
            throwable: _,
        } = self;
    }
}

/// The class or the array that a Class constant names, by what is kept of the pool's texts; `None` where the index names no
/// Class constant.
fn named_in(pool: &Pool<'_>, texts: &[TextTypes], index: u16) -> Option<FieldTypeOf<u32>>
    ensures { (names : List (List ℕ)) (arguments : List Item) → AreKept names arguments pool.now texts.now
        → option_map (typed_field names) result ≡ named_type_at pool.now index }
{
    match pool.constant(index) {
        Some(Constant::Class(name)) => kept_at(texts, name).named,
        _ => None,
    }
}

/// The type of an object of it.
fn class_item(pool: &Pool<'_>, texts: &[TextTypes], index: u16) -> Option<Item>
    ensures { (names : List (List ℕ)) (arguments : List Item) → AreKept names arguments pool.now texts.now
        → option_map (typed names) result ≡ class_type_at pool.now index }
{
    let type_of = named_in(pool, texts, index)?;
    Some(value_type(type_of))
}

/// The types of objects of what the Class constants name, by their indices.
fn class_items(
    alloc: Global,
    pool: &Pool<'_>,
    texts: &[TextTypes],
) -> Result<Vec<Option<Item>>, AllocError>
    ensures { IfOk result (λ items. (names : List (List ℕ)) (arguments : List Item) → AreKept names arguments pool.now texts.now
        → AreItems names pool.now items.items) }
{
    let mut items = Vec::with_capacity(alloc, usize::from(pool.count()))?;
    for index in 0..pool.count() {
        items.push(class_item(pool, texts, index))?;
    }
    Ok(items)
}

/// The type that is kept at an index.
#[inline(always)]
fn item_at(items: &[Option<Item>], index: u16) -> Option<Item>
    ensures { result ≡ get_or items.now index None }
{
    match items.get(usize::from(index)) {
        Some(item) => *item,
        None => None,
    }
}

impl<'t, 'a> ConstantTypes<'t, 'a> {
    /// What the constants of a pool say of a guest's classes; names are hashed with the state. Takes time and memory in
    /// proportion to the pool's bytes.
    ///
    /// # Errors
    ///
    /// Where the host had no memory for it.
    pub fn new(
        alloc: Global,
        state: RandomState,
        table: &'t ClassTable<'a>,
        pool: &'t Pool<'a>,
    ) -> Result<ConstantTypes<'t, 'a>, AllocError>
        ensures world { IfOk result (λ c. c.types.world ≡ table.now) }
        ensures pool { IfOk result (λ c. c.pool ≡ pool.now) }
    {
        let mut names = TypeNames::new(alloc, state, table)?;
        let string = names.number_of(b"java/lang/String".as_slice())?;
        let throwable = names.number_of(b"java/lang/Throwable".as_slice())?;
        let table = type_table(alloc, &mut names, pool)?;
        let items = class_items(alloc, pool, &table.texts)?;
        Ok(ConstantTypes {
            names,
            constants: pool,
            table,
            items,
            string,
            throwable,
        })
    }

    /// The names whose numbers stand in the types.
    pub fn names(&self) -> &TypeNames<'t, 'a>
        ensures { result.now ≡ self.now.types }
    {
        &self.names
    }

    /// The constants.
    pub fn pool(&self) -> &'t Pool<'a>
        ensures { result.now ≡ self.now.pool }
    {
        self.constants
    }

    /// The class or the array that a Class constant names (JVMS 4.4.1), as the type of a field would; `None` where the
    /// index names no Class constant.
    pub fn named_type(&self, index: u16) -> Option<FieldTypeOf<u32>>
        ensures { option_map (typed_field self.now.types.names) result ≡ named_type_at self.now.pool index }
    {
        named_in(self.constants, &self.table.texts, index)
    }

    /// The type of an object of the class or the array that a Class constant names; `None` where the index names no
    /// Class constant.
    #[inline(always)]
    pub fn class_type(&self, index: u16) -> Option<Item>
        ensures { option_map (typed self.now.types.names) result ≡ class_type_at self.now.pool index }
    {
        item_at(&self.items, index)
    }

    /// The type whose field descriptor a Utf8 constant is (JVMS 4.3.2); `None` where the index names none.
    pub fn field_type(&self, index: u16) -> Option<FieldTypeOf<u32>>
        ensures { option_map (typed_field self.now.types.names) result ≡ field_type_at self.now.pool index }
    {
        kept_at(&self.table.texts, index).described.field()
    }

    /// The types whose method descriptor a Utf8 constant is (JVMS 4.3.3); `None` where the index names none.
    pub fn method_type(&self, index: u16) -> Option<MethodTypes<'_>>
        ensures { option_map (typed_call self.now.types.names) result ≡ call_types_at self.now.pool index }
    {
        match kept_at(&self.table.texts, index).described {
            Described::Method(method) => Some(MethodTypes {
                arguments: arguments_of(&self.table.arguments, method),
                result: method.result,
            }),
            _ => None,
        }
    }

    /// The class java/lang/Object.
    pub fn object(&self) -> Item
        ensures { typed self.now.types.names result ≡ object_class_type }
    {
        VerificationTypeOf::Class(self.names.object())
    }

    /// The class java/lang/String.
    pub fn string(&self) -> Item
        ensures { typed self.now.types.names result ≡ string_type }
    {
        VerificationTypeOf::Class(self.string)
    }

    /// The class java/lang/Throwable.
    pub fn throwable(&self) -> Item
        ensures { typed self.now.types.names result ≡ throwable_type }
    {
        VerificationTypeOf::Class(self.throwable)
    }
}
