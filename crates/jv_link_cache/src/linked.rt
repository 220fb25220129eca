//! What a guest's classes link to.

ghost use Rattle.std.specs.Prelude.{◌≡◌, ◌<◌, Some, None, Ok, IsSome, IfOk, IfSome, IsTrue, length};
ghost use Rattle.jv_meaning_world.specs.World.{World};
ghost use Rattle.jv_meaning_world.specs.LookUps.{DeclaredField};
ghost use Rattle.jv_meaning_world.specs.Verdicts.{is_loadable};
ghost use Rattle.jv_meaning_typing.specs.Layout.{object_words};
ghost use Rattle.jv_link.specs.Orders.{IsOrder};
ghost use Rattle.jv_meaning_world.specs.Overriding.{Declared};
ghost use Rattle.jv_link_cache.specs.Places.{IsWordOf, static_words};
ghost use Rattle.jv_meaning_world.specs.Numbers.{HoldsAtNumber};
ghost use Rattle.jv_meaning_typing.specs.Operands.{class_operand, field_operand, method_operand};
ghost use Rattle.jv_lookups.specs.Places.{field_at, method_at, IsFieldPlace};
ghost use Rattle.jv_link.specs.Seen.{IsSite, IsMethodTarget};
ghost use Rattle.jv_link.specs.Objects.{IsObject};
ghost use Rattle.jv_link.specs.Answers.{IsClassUsed, IsFieldResolved, IsMethodResolved, IsSelected};
ghost use Rattle.jv_link_cache.specs.ClassUses.{IsClassUse, used_ref};
ghost use Rattle.jv_link_cache.specs.FieldUses.{IsFieldUse, used_place};
ghost use Rattle.jv_link_cache.specs.MethodUses.{IsMethodUse, used_target};
ghost use Rattle.jv_link_cache.specs.Handlers.{IsTaken};
ghost use Rattle.jv_link_cache.specs.Linked.{IsLinked};
ghost use Rattle.jv_link_cache.specs.Tasks.{settings_of, IsInitializer, IsOrderOf};

use crate::bodies::code_at;
use crate::class_use::ClassUse;
use crate::classes::{ClassEntry, class_by, used_class};
use crate::field_use::FieldUse;
use crate::fields::{FieldEntry, field_by, usable_at_once, used_field};
use crate::handlers::{Handlers, all_known, handler_in};
use crate::method_use::MethodUse;
use crate::methods::{MethodEntry, called_method, method_by};
use crate::orders::{ClassOrder, all_orders, order_in};
use crate::places::{Named, constant_rows, selection_rows};
use crate::rows::Row;
use crate::selections::{Selection, selection_by};
use crate::tasks::{ClassTasks, all_tasks, initializer_at, settings_at};
use crate::words::{ClassWords, all_words, object_words_in, word_in_all};
use jv_link::{ClassRef, LinkError, MethodTarget, Site, Use, select};
use jv_loader::{ClassTable, Classes, OutOfMemory, Place};
use std::alloc::Global;

/// What a guest's classes link to (JVMS 5.4), and what steps ask again: what a constant of a class resolves to, and which
/// method a call runs. It is asked with the classes that [`link`] took.
pub struct Linked<'a> {
    classes: Vec<Row<ClassEntry<'a>>>,
    fields: Vec<Row<FieldEntry>>,
    methods: Vec<Row<MethodEntry>>,
    virtuals: Vec<Row<Option<Selection>>>,
    interfaces: Vec<Row<Option<Selection>>>,
    specials: Vec<Row<Option<Selection>>>,
    words: Vec<ClassWords>,
    statics: usize,
    orders: Vec<ClassOrder>,
    tasks: Vec<ClassTasks>,
    handlers: Handlers,
}

impl Drop for Linked<'_> {
    fn drop(self) {
        let Linked {
            classes: _,
            fields: _,
            methods: _,
            virtuals: _,
            interfaces: _,
            specials: _,
            words: _,
            statics: _,
            orders: _,
            tasks: _,
            handlers: _,
        } = self;
    }
}

/// The same, by the table.
fn link_in<'a>(
    alloc: Global,
    table: &ClassTable<'a>,
    classes: &Classes<'a>,
) -> Result<Linked<'a>, OutOfMemory>
    requires { classes.now.world ≡ table.now }
    ensures { IfOk result (IsLinked table.now) }
{
    let of_classes = constant_rows(alloc, table, Named::Classes, None)?;
    let of_fields = constant_rows(alloc, table, Named::Fields, None)?;
    let of_methods = constant_rows(alloc, table, Named::Methods, None)?;
    let virtuals = selection_rows(alloc, table, None)?;
    let interfaces = selection_rows(alloc, table, None)?;
    let specials = selection_rows(alloc, table, None)?;
    let words = all_words(alloc, table)?;
    let orders = all_orders(alloc, table, classes)?;
    let tasks = all_tasks(alloc, table)?;
    let handlers = all_known(alloc, table)?;
    Ok(Linked {
        classes: of_classes,
        fields: of_fields,
        methods: of_methods,
        virtuals,
        interfaces,
        specials,
        words: words.0,
        statics: words.1,
        orders,
        tasks,
        handlers,
    })
}

/// Makes room for what a guest's classes link to.
///
/// # Errors
///
/// Where the host had no memory for it; nothing is then kept.
pub fn link<'a>(alloc: Global, classes: &Classes<'a>) -> Result<Linked<'a>, OutOfMemory>
    ensures { IfOk result (IsLinked classes.now.world) }
{
    link_in(alloc, classes.table(), classes)
}

impl<'a> Linked<'a> {
    /// The class or the array that the Class constant at an index resolves to at a site, for an instruction that has rules of its
    /// own or for another one, as `jv_link`'s `resolve_class` answers it (JVMS 5.4.3.1; 6.5 for `new`). Asked again, it is one
    /// entry that is read; it takes no memory.
    ///
    /// # Errors
    ///
    /// As JVMS 5.4.3.1 has them; for `new` also `InstantiationError`.
    #[inline(always)]
    pub fn class_at(
        &mut self,
        classes: &Classes<'a>,
        site: Site,
        how: Option<Use>,
        index: u16,
    ) -> Result<ClassRef<'a>, LinkError>
        requires linked { IsLinked classes.now.world self.old }
        requires site { IsSite classes.now.world site }
        requires index { HoldsAtNumber classes.now.world site.class (λ l. IsSome (class_operand l.class index)) }
        ensures found { IsClassUsed classes.now.world site how index result }
        ensures linked { IsLinked classes.now.world self.new }
    {
        let table = classes.table();
        let found = class_by(&mut self.classes, table, classes, site.class, index);
        used_class(table, site, how, index, found)
    }

    /// What [`Linked::class_at`] answers for an instruction without rules of its own, with what a step asks of it: no name is
    /// looked at where it is asked again.
    ///
    /// # Errors
    ///
    /// As JVMS 5.4.3.1 has them.
    #[inline(always)]
    pub fn class_use(
        &mut self,
        classes: &Classes<'a>,
        site: Site,
        index: u16,
    ) -> Result<ClassUse<'a>, LinkError>
        requires linked { IsLinked classes.now.world self.old }
        requires site { IsSite classes.now.world site }
        requires index { HoldsAtNumber classes.now.world site.class (λ l. IsSome (class_operand l.class index)) }
        ensures found { IsClassUsed classes.now.world site None index (used_ref result) }
        ensures used { IfOk result (IsClassUse classes.now.world) }
        ensures linked { IsLinked classes.now.world self.new }
    {
        class_by(
            &mut self.classes,
            classes.table(),
            classes,
            site.class,
            index,
        )
    }

    /// What [`Linked::field_use`] answers, where an entry has it and the instruction can use the field in every method of the
    /// class: then it is one entry that is read, and else none.
    #[inline(always)]
    pub fn field_at_once(&self, site: Site, how: Use, index: u16) -> Option<FieldUse>
        ensures found { (world : World) → IsLinked world self.now
            → IfSome result (λ used. IsFieldResolved world site how index (Ok used.place)) }
        ensures used { (world : World) → IsLinked world self.now → IfSome result (IsFieldUse world) }
    {
        usable_at_once(&self.fields, site.class, index, how)
    }

    /// What [`Linked::field_use`] answers, by the entry of the constant, which then keeps what it resolves to.
    #[cold]
    #[inline(never)]
    fn field_anew(
        &mut self,
        classes: &Classes<'_>,
        site: Site,
        how: Use,
        index: u16,
    ) -> Result<FieldUse, LinkError>
        requires linked { IsLinked classes.now.world self.old }
        requires site { IsSite classes.now.world site }
        requires index { HoldsAtNumber classes.now.world site.class (λ l. IsSome (field_operand l.class index)) }
        ensures found { IsFieldResolved classes.now.world site how index (used_place result) }
        ensures used { IfOk result (IsFieldUse classes.now.world) }
        ensures linked { IsLinked classes.now.world self.new }
    {
        let table = classes.table();
        let found = field_by(
            &mut self.fields,
            table,
            classes,
            &self.words,
            site.class,
            index,
        );
        used_field(table, site, how, index, found)
    }

    /// The same, with room of its own for the answer, which is then not made where the field is known at once.
    #[inline(always)]
    fn field_apart(
        &mut self,
        classes: &Classes<'_>,
        site: Site,
        how: Use,
        index: u16,
    ) -> Result<FieldUse, LinkError>
        requires linked { IsLinked classes.now.world self.old }
        requires site { IsSite classes.now.world site }
        requires index { HoldsAtNumber classes.now.world site.class (λ l. IsSome (field_operand l.class index)) }
        ensures found { IsFieldResolved classes.now.world site how index (used_place result) }
        ensures used { IfOk result (IsFieldUse classes.now.world) }
        ensures linked { IsLinked classes.now.world self.new }
    {
        self.field_anew(classes, site, how, index)
    }

    /// The field that the Fieldref constant at an index resolves to at a site, for an instruction, as
    /// `jv_link`'s `resolve_field` answers it (JVMS 5.4.3.2, 5.4.4, 6.5), with what a step asks of it. Asked again, it is one
    /// entry that is read; it takes no memory.
    ///
    /// # Errors
    ///
    /// As JVMS 5.4.3.2 and 6.5 have them.
    #[inline(always)]
    pub fn field_use(
        &mut self,
        classes: &Classes<'_>,
        site: Site,
        how: Use,
        index: u16,
    ) -> Result<FieldUse, LinkError>
        requires linked { IsLinked classes.now.world self.old }
        requires site { IsSite classes.now.world site }
        requires index { HoldsAtNumber classes.now.world site.class (λ l. IsSome (field_operand l.class index)) }
        ensures found { IsFieldResolved classes.now.world site how index (used_place result) }
        ensures used { IfOk result (IsFieldUse classes.now.world) }
        ensures linked { IsLinked classes.now.world self.new }
    {
        if let Some(used) = self.field_at_once(site, how, index) {
            return Ok(used);
        }
        self.field_apart(classes, site, how, index)
    }

    /// The field that the Fieldref constant at an index resolves to at a site, for an instruction, as `jv_link`'s
    /// `resolve_field` answers it.
    ///
    /// # Errors
    ///
    /// As JVMS 5.4.3.2 and 6.5 have them.
    pub fn field_at(
        &mut self,
        classes: &Classes<'_>,
        site: Site,
        how: Use,
        index: u16,
    ) -> Result<Place, LinkError>
        requires linked { IsLinked classes.now.world self.old }
        requires site { IsSite classes.now.world site }
        requires index { HoldsAtNumber classes.now.world site.class (λ l. IsSome (field_operand l.class index)) }
        ensures found { IsFieldResolved classes.now.world site how index result }
        ensures place { IfOk result (IsFieldPlace classes.now.world) }
        ensures linked { IsLinked classes.now.world self.new }
    {
        match self.field_use(classes, site, how, index) {
            Ok(used) => Ok(used.place),
            Err(error) => Err(error),
        }
    }

    /// The method that the Methodref or InterfaceMethodref constant at an index resolves to at a site, for an instruction, as
    /// `jv_link`'s `resolve_method` answers it (JVMS 5.4.3.3, 5.4.3.4, 5.4.4, 6.5), with what a step asks of it. Asked again,
    /// it is one entry that is read; it takes no memory.
    ///
    /// # Errors
    ///
    /// As JVMS 5.4.3.3, 5.4.3.4 and 6.5 have them.
    #[inline(always)]
    pub fn method_use(
        &mut self,
        classes: &Classes<'_>,
        site: Site,
        how: Use,
        index: u16,
    ) -> Result<MethodUse, LinkError>
        requires linked { IsLinked classes.now.world self.old }
        requires site { IsSite classes.now.world site }
        requires index { HoldsAtNumber classes.now.world site.class (λ l. IsSome (method_operand l.class index)) }
        ensures found { IsMethodResolved classes.now.world site how index (used_target result) }
        ensures called { IfOk result (IsMethodUse classes.now.world) }
        ensures linked { IsLinked classes.now.world self.new }
    {
        let table = classes.table();
        let found = method_by(&mut self.methods, table, classes, site.class, index);
        called_method(table, site, how, index, found)
    }

    /// The method that the Methodref or InterfaceMethodref constant at an index resolves to at a site, for an instruction, as
    /// `jv_link`'s `resolve_method` answers it.
    ///
    /// # Errors
    ///
    /// As JVMS 5.4.3.3, 5.4.3.4 and 6.5 have them.
    pub fn method_at(
        &mut self,
        classes: &Classes<'_>,
        site: Site,
        how: Use,
        index: u16,
    ) -> Result<MethodTarget, LinkError>
        requires linked { IsLinked classes.now.world self.old }
        requires site { IsSite classes.now.world site }
        requires index { HoldsAtNumber classes.now.world site.class (λ l. IsSome (method_operand l.class index)) }
        ensures found { IsMethodResolved classes.now.world site how index result }
        ensures target { IfOk result (IsMethodTarget classes.now.world) }
        ensures linked { IsLinked classes.now.world self.new }
    {
        match self.method_use(classes, site, how, index) {
            Ok(called) => Ok(called.target),
            Err(error) => Err(error),
        }
    }

    /// The method that a call at a site runs, as `jv_link`'s `select` answers it (JVMS 6.5), of the target that was resolved for
    /// the same instruction, and the number of the class of the object, which is loadable, `None` for an array's; the object is
    /// known not to be null. Asked again, it is one entry that is read, unless another call has taken its place; it takes
    /// no memory.
    ///
    /// # Errors
    ///
    /// As JVMS 6.5 has them.
    #[inline(always)]
    pub fn select_at(
        &mut self,
        classes: &Classes<'_>,
        site: Site,
        how: Use,
        target: &MethodTarget,
        object: Option<usize>,
    ) -> Result<MethodTarget, LinkError>
        requires linked { IsLinked classes.now.world self.old }
        requires site { IsSite classes.now.world site }
        requires target { IsMethodTarget classes.now.world target.now }
        requires object { IsObject classes.now.world object }
        ensures found { IsSelected classes.now.world site how target.now object result }
        ensures target { IfOk result (IsMethodTarget classes.now.world) }
        ensures linked { IsLinked classes.now.world self.new }
    {
        match how {
            Use::Invokevirtual => {
                selection_by(&mut self.virtuals, classes, 0, site, how, target, object)
            }
            Use::Invokeinterface => {
                selection_by(&mut self.interfaces, classes, 0, site, how, target, object)
            }
            Use::Invokespecial => {
                selection_by(
                    &mut self.specials,
                    classes,
                    site.class,
                    site,
                    how,
                    target,
                    object,
                )
            }
            _ => select(classes, site, how, target, object),
        }
    }

    /// How many words an object of a class has, those of inherited fields among them (JVMS 2.7, own).
    #[inline(always)]
    pub fn object_words(&self, class: usize) -> usize
        ensures { (world : World) → IsLinked world self.now → HoldsAtNumber world class (λ l. result ≡ object_words world l) }
    {
        object_words_in(&self.words, class)
    }

    /// The first word of the field at a place: in the objects that have it, or of a static field among the words of all static
    /// fields (JVMS 2.7, own).
    pub fn word_of(&self, place: Place) -> usize
        ensures { (world : World) (d : DeclaredField) → IsLinked world self.now → field_at world place ≡ Some d → IsWordOf world d result }
    {
        word_in_all(&self.words, place)
    }

    /// How many words the static fields of all classes have (own).
    pub fn static_words(&self) -> usize
        ensures { (world : World) → IsLinked world self.now → result ≡ static_words world }
    {
        self.statics
    }

    /// The numbers of the classes and interfaces that are initialized before a class that can be loaded, in their order (JVMS
    /// 5.5).
    pub fn init_order(&self, class: usize) -> &[usize]
        ensures { (world : World) → IsLinked world self.now → IsOrderOf world class result.now }
    {
        order_in(&self.orders, class)
    }

    /// Where the first handler of the method at a place begins that takes an object of a class, thrown at an offset (JVMS 2.10, 4.7.3).
    /// It takes no memory, and the same time whatever the handlers are, but for some steps for each doubling of their number.
    pub fn handler_at(
        &self,
        table: &ClassTable<'_>,
        place: Place,
        offset: u32,
        class: usize,
    ) -> Option<u16>
        requires { class < length table.now }
        ensures { (d : Declared)
            → IsLinked table.now self.now → method_at table.now place ≡ Some d → IsTaken table.now d class offset result }
    {
        let code = code_at(table, place)?;
        handler_in(
            table,
            &self.handlers.ranks,
            &self.handlers.rows,
            place,
            code.exception_table,
            offset,
            class,
        )
    }

    /// The places of the static fields of a class that its initialization sets to constants, in their order (JVMS 4.7.2, 5.5).
    pub fn settings(&self, class: usize) -> &[usize]
        ensures { (world : World) → IsLinked world self.now → HoldsAtNumber world class (λ l. result.now ≡ settings_of l) }
    {
        settings_at(&self.tasks, class)
    }

    /// The place of the `<clinit>` of a class, where it has one (JVMS 2.9, 5.5).
    pub fn initializer(&self, class: usize) -> Option<usize>
        ensures { (world : World) → IsLinked world self.now → HoldsAtNumber world class (λ l. IsInitializer l result) }
    {
        initializer_at(&self.tasks, class)
    }
}
