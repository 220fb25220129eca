//! What texts of Class constants name (JVMS 5.4.3.1, 5.3.3, and 6.5 for `new`).

ghost use Rattle.std.specs.Prelude.{IsSome};
ghost use Rattle.jv_meaning_world.specs.Numbers.{HoldsAtNumber};
ghost use Rattle.jv_meaning_typing.specs.Operands.{class_operand};
ghost use Rattle.jv_link.specs.Seen.{IsSite};
ghost use Rattle.jv_link_cache.specs.Linked.{IsLinked};

use crate::guest::{Table, wrong_row};
use crate::named::{class_name, error_name};
use crate::row::Row;
use crate::site::{class_index, site_of, use_of};
use jv_link::{ClassRef, LinkError, Site, Use, resolve_class};
use jv_link_cache::Linked;
use jv_loader::Classes;
use jv_text::{Base, Element, FieldType};
use std::hash::RandomState;

static CLASSES: &str = "\
public A java/lang/Object | public m ()V
public p/A java/lang/Object | public m ()V
public q/A java/lang/Object | public m ()V
public+interface+abstract I java/lang/Object | public m ()V
public+final F java/lang/Object
public+abstract T java/lang/Object
package p/P java/lang/Object
package+abstract p/T java/lang/Object
-- with supers that are not there, that are above it, of another kind, closed to it, and final
public L Missing
public M L
public N java/lang/Object Missing
public O O
public V W
public W V
public U O
public+interface+abstract J java/lang/Object K
public+interface+abstract K java/lang/Object J
public S I
public R java/lang/Object A
public q/N p/P
public G F
package p/L Missing
-- no classes: a field of type float, a reserved name, a name that is taken
public X java/lang/Object | public f F
public java/X java/lang/Object
public+abstract A java/lang/Object";

static ROWS: &str = "\
A m checkcast Class A = A
A m checkcast Class p/A = p/A
A m checkcast Class java/lang/Object = java/lang/Object
A m checkcast Class I = I
A m checkcast Class T = T
I m checkcast Class A = A
-- not there
A m checkcast Class Missing = NoClassDefFoundError
A m checkcast Class X = NoClassDefFoundError
A m checkcast Class java/X = NoClassDefFoundError
A m checkcast Class p/Missing = NoClassDefFoundError
-- errors of its supers
A m checkcast Class L = NoClassDefFoundError
A m checkcast Class M = NoClassDefFoundError
A m checkcast Class N = NoClassDefFoundError
A m checkcast Class O = ClassCircularityError
A m checkcast Class V = ClassCircularityError
A m checkcast Class W = ClassCircularityError
A m checkcast Class J = ClassCircularityError
A m checkcast Class K = ClassCircularityError
A m checkcast Class U = NoClassDefFoundError
A m checkcast Class S = IncompatibleClassChangeError
A m checkcast Class R = IncompatibleClassChangeError
A m checkcast Class q/N = IllegalAccessError
q/A m checkcast Class q/N = IllegalAccessError
A m checkcast Class G = G
-- access, from another package and from its own, behind errors of the class
A m checkcast Class p/P = IllegalAccessError
q/A m checkcast Class p/P = IllegalAccessError
p/A m checkcast Class p/P = p/P
A m checkcast Class p/L = NoClassDefFoundError
-- arrays, with their elements
A m checkcast Class [I = 1 int
A m checkcast Class [[LA; = 2 A
p/A m checkcast Class [Lp/P; = 1 p/P
A m checkcast Class [Ljava/lang/Object; = 1 java/lang/Object
A m checkcast Class [LMissing; = NoClassDefFoundError
A m checkcast Class [[LO; = ClassCircularityError
A m checkcast Class [LS; = IncompatibleClassChangeError
A m checkcast Class [Lp/P; = IllegalAccessError
-- `new`: errors of the class, access, and then the kind
A m new Class A = A
A m new Class F = F
A m new Class I = InstantiationError
A m new Class T = InstantiationError
A m new Class [I = InstantiationError
A m new Class [LA; = InstantiationError
A m new Class [LMissing; = NoClassDefFoundError
A m new Class [Lp/P; = IllegalAccessError
A m new Class Missing = NoClassDefFoundError
A m new Class O = ClassCircularityError
A m new Class S = IncompatibleClassChangeError
A m new Class p/P = IllegalAccessError
A m new Class p/T = IllegalAccessError
p/A m new Class p/T = InstantiationError
p/A m new Class p/P = p/P
A m new Class p/L = NoClassDefFoundError
-- the other instructions have no rule of that kind
A m getstatic Class I = I
A m invokestatic Class T = T
A m getstatic Class p/P = IllegalAccessError";

/// Whether an element is the one of a name.
fn is_element(element: Element<&[u8]>, name: &str) -> bool {
    match element {
        Element::Class(class) => class == name.as_bytes(),
        Element::Base(Base::Int) => name == "int",
        Element::Base(_) => false,
    }
}

/// Whether a type has so many dimensions and an element of this name.
fn is_array(array: FieldType<'_>, dimensions: &str, name: &str) -> bool {
    dimensions.parse::<u8>() == Ok(array.dimensions) && is_element(array.element, name)
}

/// Whether what was found is what a row says.
fn is_ref(classes: &Classes<'_>, found: ClassRef<'_>, answer: &str) -> bool {
    match found {
        ClassRef::Class(number) => class_name(classes, number) == answer.as_bytes(),
        ClassRef::Array(array) => match answer.split_once(' ') {
            Some((dimensions, name)) => is_array(array, dimensions, name),
            None => false,
        },
    }
}

/// Whether a class was found as a row says.
fn is_found(classes: &Classes<'_>, found: Result<ClassRef<'_>, LinkError>, row: &Row<'_>) -> bool {
    match found {
        Ok(found) => is_ref(classes, found, row.answer),
        Err(error) => error_name(error) == row.answer.as_bytes(),
    }
}

/// Whether a class is resolved as a row says: by its text, and twice by what is kept of its constant.
fn resolves<'a>(
    classes: &Classes<'a>,
    linked: &mut Linked<'a>,
    site: Site,
    how: Option<Use>,
    index: u16,
    row: &Row<'_>,
) -> bool
    requires linked { IsLinked classes.now.world linked.old }
    requires site { IsSite classes.now.world site }
    requires index { HoldsAtNumber classes.now.world site.class (λ l. IsSome (class_operand l.class index)) }
    ensures { IsLinked classes.now.world linked.new }
{
    let named = resolve_class(classes, site, how, row.named.as_bytes());
    let first = linked.class_at(classes, site, how, index);
    let again = linked.class_at(classes, site, how, index);
    is_found(classes, named, row) && is_found(classes, first, row) && is_found(classes, again, row)
}

/// Whether a class is resolved as a row says.
pub(crate) fn is_right<'a>(classes: &Classes<'a>, linked: &mut Linked<'a>, row: &Row<'_>) -> bool
    requires { IsLinked classes.now.world linked.old }
    ensures { IsLinked classes.now.world linked.new }
{
    let Some(site) = site_of(classes, row) else {
        return false;
    };
    match class_index(classes, site.class, row) {
        Some(index) => resolves(classes, linked, site, use_of(row.how), index, row),
        None => false,
    }
}

#[test]
fn classes_resolve(rt: HostRuntime) {
    match RandomState::new(&rt) {
        Ok(state) => {
            let wrong = wrong_row(rt.alloc(), state, CLASSES, Table::Classes, ROWS);
            assert!(rt; wrong == "", "{wrong}");
        }
        Err(_) => assert!(rt; false),
    }
}
