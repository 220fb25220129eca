//! The classes of a world, with what is asked of their supers at hand.

ghost use Rattle.std.specs.Prelude.{◌≡◌, ◌<◌, IfOk, length};
ghost use Rattle.jv_meaning_world.specs.Above.{is_above, is_circular, superclasses};
ghost use Rattle.jv_meaning_world.specs.Laws.Above.{SystemStandsAlone};
ghost use Rattle.jv_meaning_world.specs.LookUps.{is_among, is_subclass};
ghost use Rattle.jv_meaning_world.specs.Verdicts.{is_loadable, each_super, have_right_kind, can_name_supers, has_final_super};
ghost use Rattle.jv_meaning_world.specs.Numbers.{number_named, superclass_number, IsNumbered, AreNoArrays, HoldsAtBoth, AreSuperclassesOf};
ghost use Rattle.std.specs.List.{All};
ghost use Rattle.jv_classes.specs.Above.{MarksAbove};
ghost use Rattle.jv_classes.specs.Faults.{fault_of_supers};
ghost use Rattle.jv_classes.specs.Once.{direct_numbers};
ghost use Rattle.jv_classes.specs.Marks.{MarksField, MarksMethod};
ghost use Rattle.jv_meaning_world.specs.Numbers.{HoldsAtNumber};

use crate::declared_marks::{field_marks, method_marks};
use crate::key_marks::KeyMarks;
use crate::key_row::KeyRow;
use crate::list::ClassList;
use crate::loaded_class::LoadedClass;
use crate::members::member_key;
use crate::relation::Relation;
use crate::supers::{are_marked, can_name_supers, have_right_kind, is_final_at};
use crate::table::{
    above_of, all_chains, all_loadable, all_stand, all_supers, direct_superclasses, superclasses_of,
};
use crate::text::Text;
use jv_meaning_world::LoadVerdict;
use std::alloc::{AllocError, Global};
use std::marker::Model;

/// The classes of a guest's world (JVMS 5.3), by number. In contracts it is that world; which classes
/// are above which, and which can be loaded, is answered without a search.
pub struct ClassTable<'a> {
    list: ClassList<'a>,
    supers: Vec<Vec<Option<usize>>>,
    direct: Vec<Option<usize>>,
    chains: Vec<Vec<u16>>,
    above: Relation,
    superclasses: Relation,
    loadable: Vec<bool>,
    seed: u64,
    methods: KeyMarks,
    fields: KeyMarks,
}

impl<'a> Model for ClassTable<'a> {
    ghost use Rattle.jv_meaning_world.specs.World.{World};
    ghost use Rattle.jv_classes.specs.Inside.Rows.{numbers_of};
    ghost use Rattle.jv_classes.specs.Inside.Told.{IsTable};

    ghost Value = { World };

    ghost view = { λ t. t.list };

    ghost invariant = { λ t. IsTable t.list (numbers_of t.supers.items) t.direct.items t.chains.items t.above t.superclasses
        t.loadable.items t.seed t.methods t.fields };
}

impl Drop for ClassTable<'_> {
    fn drop(self) {
        let ClassTable {
            list: _,
            supers: _,
            direct: _,
            chains: _,
            above: _,
            superclasses: _,
            loadable: _,
            seed: _,
            methods: _,
            fields: _,
        } = self;
    }
}

impl<'a> ClassTable<'a> {
    /// The table of some classes.
    ///
    /// # Errors
    ///
    /// Where the host had no memory for it; there is none for a superclass whose number has no room in two bytes.
    pub fn of(alloc: Global, list: ClassList<'a>) -> Result<ClassTable<'a>, AllocError>
        requires { SystemStandsAlone list }
        ensures { IfOk result (λ t. t ≡ list.entry) }
    {
        list.is_numbered();
        let classes = list.classes();
        let supers = all_supers(alloc, &list)?;
        let above = above_of(alloc, classes, &supers)?;
        let superclasses = superclasses_of(alloc, classes, &supers)?;
        let stand = all_stand(alloc, classes, &supers, &above)?;
        let loadable = all_loadable(alloc, classes, &above, &stand)?;
        let direct = direct_superclasses(alloc, classes, &supers)?;
        let chains = all_chains(alloc, classes, &direct)?;
        let seed = list.seed();
        let methods = method_marks(alloc, seed, classes)?;
        let fields = field_marks(alloc, seed, classes)?;
        Ok(ClassTable {
            list,
            supers,
            direct,
            chains,
            above,
            superclasses,
            loadable,
            seed,
            methods,
            fields,
        })
    }

    /// Each class is the one of its name. The call does nothing.
    pub fn is_numbered(&self)
        ensures { IsNumbered self.now }
    {
        self.list.is_numbered();
    }

    /// No class has the name of an array (JVMS 4.1). The call does nothing.
    pub fn are_no_arrays(&self)
        ensures { AreNoArrays self.now }
    {
        self.list.are_no_arrays();
    }

    /// The seed under which the texts of members are hashed.
    pub fn seed(&self) -> u64 {
        self.seed
    }

    /// How many classes there are.
    pub fn count(&self) -> usize
        ensures { result ≡ length self.now }
    {
        self.list.count()
    }

    /// The number of the class of a name, where it is there.
    pub fn find(&self, name: &[u8]) -> Option<usize>
        ensures { result ≡ number_named self.now name.now }
    {
        self.list.find(name)
    }

    /// The classes, each at its number.
    pub fn classes(&self) -> &[LoadedClass<'a>]
        ensures { result.now ≡ self.now }
    {
        self.list.classes()
    }

    /// The numbers of the direct supers of a class, each where it is there: that of the superclass comes
    /// first, and then those of the superinterfaces, each once (JVMS 5.3.5).
    pub fn supers(&self, number: usize) -> &[Option<usize>]
        requires { number < length self.now }
        ensures { HoldsAtNumber self.now number (λ l. result.now ≡ direct_numbers self.now l.class) }
    {
        &self.supers[number]
    }

    /// The number of the superclass of a class, where it has one and that is there.
    pub fn super_of(&self, number: usize) -> Option<usize>
        requires { number < length self.now }
        ensures { HoldsAtNumber self.now number (λ l. result ≡ superclass_number self.now l.class) }
    {
        self.direct[number]
    }

    /// The numbers of the superclasses of a class that are there, the direct one first. A chain that ends in a circle is followed
    /// as often as there are classes. It takes no memory, and one look; each number is kept in two bytes.
    pub fn superclasses(&self, number: usize) -> &[u16]
        requires { number < length self.now }
        ensures found { AreSuperclassesOf self.now number result.now }
        ensures numbers { All (λ k. k < length self.now) result.now }
    {
        &self.chains[number]
    }

    /// Marks by number of the classes that may declare a method of a name and a descriptor: one that is not marked does not. It
    /// costs no look at a class.
    pub fn marks_of_method(&self, name: &Text<'_>, descriptor: &Text<'_>) -> KeyRow<'_>
        ensures { MarksMethod self.now name.now descriptor.now result }
    {
        self.methods.row(member_key(self.seed, name, descriptor))
    }

    /// The same of a field.
    pub fn marks_of_field(&self, name: &Text<'_>, descriptor: &Text<'_>) -> KeyRow<'_>
        ensures { MarksField self.now name.now descriptor.now result }
    {
        self.fields.row(member_key(self.seed, name, descriptor))
    }

    /// Whether a class is among the superclasses and superinterfaces of another, at any distance.
    pub fn is_above(&self, above: usize, number: usize) -> bool
        requires above { above < length self.now }
        requires number { number < length self.now }
        ensures { HoldsAtBoth self.now number above (λ l to. result ≡ is_above self.now to.class.name l.class) }
    {
        self.above.holds(number, above)
    }

    /// Also marks each class above a class: its superclasses and superinterfaces, at any distance.
    pub fn mark_above(&self, number: usize, marks: &mut [bool])
        requires number { number < length self.now }
        requires marks { length marks.old ≡ length self.now }
        ensures size { length marks.new ≡ length marks.old }
        ensures marked { MarksAbove self.now number marks.old marks.new }
    {
        self.above.mark_related(number, marks);
    }

    /// Whether a class is another, or below it on the chain of superclasses.
    pub fn is_subclass(&self, number: usize, of: usize) -> bool
        requires number { number < length self.now }
        requires of { of < length self.now }
        ensures { HoldsAtNumber self.now number (λ l. HoldsAtNumber self.now of (λ to. result ≡ is_subclass self.now l to)) }
    {
        self.is_numbered();
        number == of || self.superclasses.holds(number, of)
    }

    /// Whether a class is on the chain of another's superclasses.
    pub fn is_superclass(&self, above: usize, number: usize) -> bool
        requires above { above < length self.now }
        requires number { number < length self.now }
        ensures { HoldsAtBoth self.now number above (λ l to. result ≡ is_among (superclasses self.now l.class) to) }
    {
        self.superclasses.holds(number, above)
    }

    /// Whether a class can be loaded (JVMS 5.3.5).
    pub fn is_loadable(&self, number: usize) -> bool
        requires { number < length self.now }
        ensures { HoldsAtNumber self.now number (λ l. result ≡ is_loadable self.now l) }
    {
        self.loadable[number]
    }

    /// Whether a class is among its own superclasses and superinterfaces (JVMS 5.3.5).
    pub fn is_circular(&self, number: usize) -> bool
        requires { number < length self.now }
        ensures { HoldsAtNumber self.now number (λ l. result ≡ is_circular self.now l.class) }
    {
        self.is_above(number, number)
    }

    /// Whether each direct super of a class is there and can be loaded (JVMS 5.3.5).
    pub(crate) fn supers_are_loadable(&self, number: usize) -> bool
        requires { number < length self.now }
        ensures { HoldsAtNumber self.now number (λ l. result ≡ each_super self.now (is_loadable self.now) l.class) }
    {
        are_marked(&self.loadable, self.supers(number))
    }

    /// Whether the superclass of a class is no interface, and each direct superinterface is one (JVMS 5.3.5).
    pub(crate) fn supers_have_right_kind(&self, number: usize) -> bool
        requires { number < length self.now }
        ensures { HoldsAtNumber self.now number (λ l. result ≡ have_right_kind self.now l.class) }
    {
        have_right_kind(self.classes(), &self.classes()[number], self.supers(number))
    }

    /// Whether a class can name each of its direct supers (JVMS 5.3.5, 5.4.4).
    pub fn can_name_supers(&self, number: usize) -> bool
        requires { number < length self.now }
        ensures { HoldsAtNumber self.now number (λ l. result ≡ can_name_supers self.now l) }
    {
        can_name_supers(self.classes(), &self.classes()[number], self.supers(number))
    }

    /// Whether the superclass of a class is there and final.
    pub fn has_final_super(&self, number: usize) -> bool
        requires { number < length self.now }
        ensures { HoldsAtNumber self.now number (λ l. result ≡ has_final_super self.now l.class) }
    {
        is_final_at(self.classes(), self.super_of(number))
    }

    /// What is wrong with the supers of a class, finals aside: it is circular, or a direct super can't be
    /// loaded, is of the wrong kind, or is not open to it (JVMS 5.3.5).
    pub fn fault_of_supers(&self, number: usize) -> Option<LoadVerdict>
        requires { number < length self.now }
        ensures { HoldsAtNumber self.now number (λ l. result ≡ fault_of_supers self.now l) }
    {
        if self.is_circular(number) {
            Some(LoadVerdict::Circular)
        } else if !self.supers_are_loadable(number) {
            Some(LoadVerdict::NoSuper)
        } else if !self.supers_have_right_kind(number) {
            Some(LoadVerdict::WrongKind)
        } else if !self.can_name_supers(number) {
            Some(LoadVerdict::NoAccess)
        } else {
            None
        }
    }
}
