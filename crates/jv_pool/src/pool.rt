//! The pool: its constants, and what an index names.

ghost use Rattle.std.specs.Prelude.{◌≡◌, ◌≢◌, ◌≤◌, ◌<◌, ◌++◌, List, ℕ, take, length, IfOk, IfErr, IfSome, IfNone, IsSome, Err};
ghost use Rattle.std.specs.List.{All};
ghost use Rattle.std.specs.Option.{option_map, IsSomeAnd};
ghost use Rattle.std.specs.Int.{cast_signed, w32, w64};
ghost use Rattle.jv_pool.specs.Constants.{Entry, pool_count, kind_at, at_index, utf8_at, integer_at, long_at, class_name_at, string_at, field_reference_at, method_reference_at, interface_method_reference_at, name_and_type_at};
ghost use Rattle.jv_pool.specs.Rules.{KeepsRules, IsPool};
ghost use Rattle.jv_pool.specs.Facts.{AreFacts};
ghost use Rattle.jv_pool.specs.Seen.{seen, seen_text, seen_name_and_type, seen_member};
ghost use Rattle.jv_pool.specs.Inside.Pools.{IsInside};
ghost use Rattle.jv_pool.specs.declared.fault.PoolFault.TheVariants.{BadPool, OutOfMemory};

use crate::alike::all_alike;
use crate::constant::{Constant, Kind, MemberName, NameAndTypeTexts};
use crate::facts::TextFacts;
use crate::fault::PoolFault;
use crate::index::{
    ClassIndex, FieldrefIndex, IntegerIndex, InterfaceMethodrefIndex, LongIndex, MethodrefIndex,
    NameAndTypeIndex, StringIndex, Utf8Index,
};
use crate::known::Known;
use crate::reading::table_at;
use crate::rules::keep_rules;
use std::alloc::Global;
use std::marker::Model;

/// The constants of a class file, each of which keeps the rules of its kind. Its texts are parts
/// of the file.
///
/// A getter that takes a typed index asks that the index names such a constant here; the function
/// of its kind, as [`Pool::utf8_index`], makes one of a number that does.
#[derive(Drop)]
pub struct Pool<'a> {
    known: Known<'a>,
    alike: Vec<u16>,
}

impl<'a> Model for Pool<'a> {
    ghost use Rattle.std.specs.Prelude.{List};
    ghost use Rattle.jv_pool.specs.Constants.{Entry};
    ghost use Rattle.jv_pool.specs.Inside.Pools.{IsInside};

    ghost Value = { List Entry };

    ghost view = { λ p. p.known };

    ghost invariant = { λ p. IsInside p.known p.alike.items };
}

/// The pool at the front of the bytes, and how many bytes it takes (JVMS 4.1, 4.4).
///
/// # Errors
///
/// `BadPool` where no front of the bytes is a pool; `OutOfMemory` where the host had none for the
/// table of constants.
pub fn read_pool<'a>(alloc: Global, bytes: &'a [u8]) -> Result<(Pool<'a>, usize), PoolFault>
    ensures within { IfOk result (λ x. x.1 ≤ length bytes.now) }
    ensures ok { IfOk result (λ x. IsPool (take x.1 bytes.now) x.0) }

    // A refusal says that no front of the bytes is a pool.
    ensures bad { result ≡ Err BadPool
        → (pool : List Entry) (front rest : List ℕ) → bytes.now ≡ front ++ rest → IsPool front pool → ⊥ }
{
    let (table, rest) = table_at(alloc, bytes)?;
    let alike = all_alike(alloc, &table)?;
    let known = Known::new(alloc, table, &alike)?;
    if !keep_rules(&known) {
        return Err(PoolFault::BadPool);
    }
    let taken = bytes.len() - rest.len();
    let pool = Pool::new(known, alike);
    Ok((pool, taken))
}

impl<'a> Pool<'a> {
    /// The pool of a table, with the least index of the text at each index.
    fn new(known: Known<'a>, alike: Vec<u16>) -> Pool<'a>
        requires { IsInside known alike.items }
        ensures { result ≡ known.entry }
    {
        Pool { known, alike }
    }

    /// Each constant keeps the rules of its kind (4.4). The call does nothing: a holder of a pool
    /// learns what holds of every pool.
    pub fn keeps_rules(&self)
        ensures { All (KeepsRules self.now) self.now }
    {
        let _known = &self.known;
    }

    /// One more than the number of entries of the table (4.1); indices are below it.
    pub fn count(&self) -> u16
        ensures { result ≡ pool_count self.now }
    {
        self.known.table().count()
    }

    /// The kind of the constant at an index; `None` where the index names none.
    pub fn kind(&self, index: u16) -> Option<Kind>
        ensures { result ≡ kind_at self.now index }
    {
        self.known.table().kind(index)
    }

    /// The constant at an index; `None` where the index names none.
    #[inline(always)]
    pub fn constant(&self, index: u16) -> Option<Constant<&'a [u8]>>
        ensures { option_map seen result ≡ at_index self.now index }
    {
        self.known.table().constant(index)
    }

    // ---- typed indices

    /// The number as the index of a Utf8 constant (4.4.7); `None` where it names none.
    pub fn utf8_index(&self, index: u16) -> Option<Utf8Index>
        ensures same { IfSome result (λ i. i.0 ≡ index) }
        ensures names { IfSome result (λ i. IsSome (utf8_at self.now i.0)) }
        ensures none { IfNone result (utf8_at self.now index ≡ None) }
    {
        match self.known.table().utf8(index) {
            Some(_) => Some(Utf8Index(index)),
            None => None,
        }
    }

    /// The number as the index of an Integer constant (4.4.4); `None` where it names none.
    #[inline]
    pub fn integer_index(&self, index: u16) -> Option<IntegerIndex>
        ensures same { IfSome result (λ i. i.0 ≡ index) }
        ensures names { IfSome result (λ i. IsSome (integer_at self.now i.0)) }
        ensures none { IfNone result (integer_at self.now index ≡ None) }
    {
        match self.known.table().integer(index) {
            Some(_) => Some(IntegerIndex(index)),
            None => None,
        }
    }

    /// The number as the index of a Long constant (4.4.5); `None` where it names none.
    pub fn long_index(&self, index: u16) -> Option<LongIndex>
        ensures same { IfSome result (λ i. i.0 ≡ index) }
        ensures names { IfSome result (λ i. IsSome (long_at self.now i.0)) }
        ensures none { IfNone result (long_at self.now index ≡ None) }
    {
        match self.known.table().long(index) {
            Some(_) => Some(LongIndex(index)),
            None => None,
        }
    }

    /// The number as the index of a Class constant (4.4.1); `None` where it names none.
    pub fn class_index(&self, index: u16) -> Option<ClassIndex>
        ensures same { IfSome result (λ i. i.0 ≡ index) }
        ensures names { IfSome result (λ i. IsSome (class_name_at self.now i.0)) }
        ensures none { IfNone result (class_name_at self.now index ≡ None) }
    {
        match self.known.table().class_name(index) {
            Some(_) => Some(ClassIndex(index)),
            None => None,
        }
    }

    /// The number as the index of a String constant (4.4.3); `None` where it names none.
    pub fn string_index(&self, index: u16) -> Option<StringIndex>
        ensures same { IfSome result (λ i. i.0 ≡ index) }
        ensures names { IfSome result (λ i. IsSome (string_at self.now i.0)) }
        ensures none { IfNone result (string_at self.now index ≡ None) }
    {
        match self.known.table().string(index) {
            Some(_) => Some(StringIndex(index)),
            None => None,
        }
    }

    /// The number as the index of a Fieldref constant (4.4.2); `None` where it names none.
    pub fn fieldref_index(&self, index: u16) -> Option<FieldrefIndex>
        ensures same { IfSome result (λ i. i.0 ≡ index) }
        ensures names { IfSome result (λ i. IsSome (field_reference_at self.now i.0)) }
        ensures none { IfNone result (field_reference_at self.now index ≡ None) }
    {
        match self.known.table().field_reference(index) {
            Some(_) => Some(FieldrefIndex(index)),
            None => None,
        }
    }

    /// The number as the index of a Methodref constant (4.4.2); `None` where it names none.
    pub fn methodref_index(&self, index: u16) -> Option<MethodrefIndex>
        ensures same { IfSome result (λ i. i.0 ≡ index) }
        ensures names { IfSome result (λ i. IsSome (method_reference_at self.now i.0)) }
        ensures none { IfNone result (method_reference_at self.now index ≡ None) }
    {
        match self.known.table().method_reference(index) {
            Some(_) => Some(MethodrefIndex(index)),
            None => None,
        }
    }

    /// The number as the index of an InterfaceMethodref constant (4.4.2); `None` where it names none.
    pub fn interface_methodref_index(&self, index: u16) -> Option<InterfaceMethodrefIndex>
        ensures same { IfSome result (λ i. i.0 ≡ index) }
        ensures names { IfSome result (λ i. IsSome (interface_method_reference_at self.now i.0)) }
        ensures none { IfNone result (interface_method_reference_at self.now index ≡ None) }
    {
        match self.known.table().interface_method_reference(index) {
            Some(_) => Some(InterfaceMethodrefIndex(index)),
            None => None,
        }
    }

    /// The number as the index of a NameAndType constant (4.4.6); `None` where it names none.
    pub fn name_and_type_index(&self, index: u16) -> Option<NameAndTypeIndex>
        ensures same { IfSome result (λ i. i.0 ≡ index) }
        ensures names { IfSome result (λ i. IsSome (name_and_type_at self.now i.0)) }
        ensures none { IfNone result (name_and_type_at self.now index ≡ None) }
    {
        match self.known.table().name_and_type(index) {
            Some(_) => Some(NameAndTypeIndex(index)),
            None => None,
        }
    }

    // ---- what typed indices name

    /// The text of a Utf8 constant (4.4.7).
    pub fn utf8(&self, index: Utf8Index) -> &'a [u8]
        requires { IsSome (utf8_at self.now index.0) }
        ensures { utf8_at self.now index.0 ≡ Some result.now }
    {
        match self.known.table().utf8(index.0) {
            Some(found) => found,
            None => unreachable!(),
        }
    }

    /// The name of a Class constant (4.4.1): a class name, or an array's field descriptor.
    pub fn class_name(&self, index: ClassIndex) -> &'a [u8]
        requires { IsSome (class_name_at self.now index.0) }
        ensures { class_name_at self.now index.0 ≡ Some result.now }
    {
        match self.known.table().class_name(index.0) {
            Some(found) => found,
            None => unreachable!(),
        }
    }

    /// The text of a String constant (4.4.3).
    pub fn string(&self, index: StringIndex) -> &'a [u8]
        requires { IsSome (string_at self.now index.0) }
        ensures { string_at self.now index.0 ≡ Some result.now }
    {
        match self.known.table().string(index.0) {
            Some(found) => found,
            None => unreachable!(),
        }
    }

    /// The field that a Fieldref constant names (4.4.2).
    pub fn field_reference(&self, index: FieldrefIndex) -> MemberName<'a>
        requires { IsSome (field_reference_at self.now index.0) }
        ensures { field_reference_at self.now index.0 ≡ Some (seen_member result) }
    {
        match self.known.table().field_reference(index.0) {
            Some(found) => found,
            None => unreachable!(),
        }
    }

    /// The method that a Methodref constant names (4.4.2).
    pub fn method_reference(&self, index: MethodrefIndex) -> MemberName<'a>
        requires { IsSome (method_reference_at self.now index.0) }
        ensures { method_reference_at self.now index.0 ≡ Some (seen_member result) }
    {
        match self.known.table().method_reference(index.0) {
            Some(found) => found,
            None => unreachable!(),
        }
    }

    /// The method that an InterfaceMethodref constant names (4.4.2).
    pub fn interface_method_reference(&self, index: InterfaceMethodrefIndex) -> MemberName<'a>
        requires { IsSome (interface_method_reference_at self.now index.0) }
        ensures { interface_method_reference_at self.now index.0 ≡ Some (seen_member result) }
    {
        match self.known.table().interface_method_reference(index.0) {
            Some(found) => found,
            None => unreachable!(),
        }
    }

    /// The texts that a NameAndType constant names (4.4.6).
    pub fn name_and_type(&self, index: NameAndTypeIndex) -> NameAndTypeTexts<'a>
        requires { IsSome (name_and_type_at self.now index.0) }
        ensures { name_and_type_at self.now index.0 ≡ Some (seen_name_and_type result) }
    {
        match self.known.table().name_and_type(index.0) {
            Some(found) => found,
            None => unreachable!(),
        }
    }

    /// The number of an Integer constant, in two's complement (4.4.4).
    #[inline]
    pub fn integer(&self, index: IntegerIndex) -> i32
        requires { IsSome (integer_at self.now index.0) }
        ensures { option_map (cast_signed w32) (integer_at self.now index.0) ≡ Some result }
    {
        match self.known.table().integer(index.0) {
            Some(bits) => bits.cast_signed(),
            None => unreachable!(),
        }
    }

    /// The number of a Long constant, in two's complement (4.4.5).
    pub fn long(&self, index: LongIndex) -> i64
        requires { IsSome (long_at self.now index.0) }
        ensures { option_map (cast_signed w64) (long_at self.now index.0) ≡ Some result }
    {
        match self.known.table().long(index.0) {
            Some(bits) => bits.cast_signed(),
            None => unreachable!(),
        }
    }

    /// What is known of the text of a Utf8 constant, found when the pool was read.
    pub fn facts(&self, index: Utf8Index) -> TextFacts
        requires { IsSome (utf8_at self.now index.0) }
        ensures { IsSomeAnd (utf8_at self.now index.0) (λ t. AreFacts t result) }
    {
        match self.known.facts(index.0) {
            Some(facts) => facts,
            None => unreachable!(),
        }
    }

    /// The least index of a Utf8 constant with the same text, found when the pool was read.
    pub fn first_alike(&self, index: Utf8Index) -> u16
        requires { IsSome (utf8_at self.now index.0) }
        ensures same { utf8_at self.now result ≡ utf8_at self.now index.0 }
        ensures first { (i : ℕ) → i < result → utf8_at self.now i ≢ utf8_at self.now index.0 }
    {
        match self.alike.get(usize::from(index.0)) {
            Some(first) => *first,
            None => unreachable!(),
        }
    }
}
