//! What fields resolve to (JVMS 5.4.3.2, 5.4.4, 6.5).

ghost use Rattle.std.specs.Prelude.{IsSome};
ghost use Rattle.jv_meaning_world.specs.Numbers.{HoldsAtNumber};
ghost use Rattle.jv_meaning_typing.specs.Operands.{field_operand};
ghost use Rattle.jv_link.specs.Seen.{IsSite};
ghost use Rattle.jv_link_cache.specs.Linked.{IsLinked};

use crate::guest::{Table, wrong_row};
use crate::named::{class_name, error_name, is_field_at};
use crate::row::Row;
use crate::site::{field_index, site_of, use_of};
use jv_link::{LinkError, Site, Use, resolve_field};
use jv_link_cache::Linked;
use jv_loader::{Classes, Place};
use std::hash::RandomState;

static CLASSES: &str = "\
public p/P java/lang/Object\
 | public m ()V | public <init> ()V | static <clinit> ()V\
 | private own I | package near I | protected kept I | public open I\
 | private+static own_static I | package+static near_static I | protected+static kept_static I | public+static open_static I\
 | public+final fixed I | public+static+final fixed_static I | private+final own_fixed I | public wide J
public p/A java/lang/Object | public m ()V
public q/B java/lang/Object | public m ()V | package+static <clinit> ()V
public q/C p/P | public m ()V | public <init> ()V | static <clinit> ()V
public q/D q/C | public m ()V
public q/E p/P | public m ()V
public r/F q/C | public m ()V
package p/H java/lang/Object | public open I
-- classes with errors of their own
public O O
public L Missing
public S I
-- a constant in an interface, in a class and below both
public+interface+abstract I java/lang/Object | public+static+final constant I | public+static <clinit> ()V
public+interface+abstract J java/lang/Object I
public p/K java/lang/Object | package+static constant I
public q/T p/K J
public p/U q/T
public p/V p/K";

static ROWS: &str = "\
-- where it is declared
p/P m getfield Fieldref p/P own I = p/P
q/B m getfield Fieldref p/P open I = p/P
q/B m getfield Fieldref q/D open I = p/P
q/B m getstatic Fieldref q/D open_static I = p/P
q/B m putfield Fieldref q/D open I = p/P
q/B m putstatic Fieldref q/D open_static I = p/P
q/B m getfield Fieldref p/P wide J = p/P
-- a class's superinterfaces are searched before its superclass
q/B m getstatic Fieldref I constant I = I
q/B m getstatic Fieldref J constant I = I
q/B m getstatic Fieldref q/T constant I = I
q/B m getstatic Fieldref p/U constant I = I
p/A m getstatic Fieldref p/V constant I = p/K
q/B m getstatic Fieldref p/V constant I = IllegalAccessError
-- not there: no such name, another type, an array
q/B m getfield Fieldref q/B open I = NoSuchFieldError
q/B m getfield Fieldref p/P none I = NoSuchFieldError
q/B m getfield Fieldref p/P open J = NoSuchFieldError
q/B m getstatic Fieldref J none I = NoSuchFieldError
q/B m getfield Fieldref [Lp/P; open I = NoSuchFieldError
q/B m getfield Fieldref [I length I = NoSuchFieldError
-- errors of the class come before those of the field
q/B m getfield Fieldref Missing open I = NoClassDefFoundError
q/B m getfield Fieldref L open I = NoClassDefFoundError
q/B m getfield Fieldref O open I = ClassCircularityError
q/B m getfield Fieldref S open I = IncompatibleClassChangeError
q/B m getfield Fieldref p/H open I = IllegalAccessError
q/B m getfield Fieldref p/H none I = IllegalAccessError
q/B m getfield Fieldref [Lp/H; open I = IllegalAccessError
p/A m getfield Fieldref p/H open I = p/H
-- private
q/C m getfield Fieldref p/P own I = IllegalAccessError
p/A m getfield Fieldref p/P own I = IllegalAccessError
q/B m getfield Fieldref java/lang/String value [C = IllegalAccessError
p/P m getstatic Fieldref p/P own_static I = p/P
p/P m getstatic Fieldref q/D own_static I = p/P
p/A m getstatic Fieldref p/P own_static I = IllegalAccessError
-- package-private: the package is that of the class that declares it
p/A m getfield Fieldref p/P near I = p/P
p/A m getfield Fieldref q/C near I = p/P
q/C m getfield Fieldref p/P near I = IllegalAccessError
q/C m getfield Fieldref q/C near I = IllegalAccessError
p/A m getstatic Fieldref q/C near_static I = p/P
q/C m getstatic Fieldref q/C near_static I = IllegalAccessError
-- protected, from its package
p/A m getfield Fieldref p/P kept I = p/P
p/A m getfield Fieldref q/E kept I = p/P
-- protected, from a subclass: the named class is above it, the same, below it and beside it
q/C m getfield Fieldref p/P kept I = p/P
q/C m getfield Fieldref q/C kept I = p/P
q/C m getfield Fieldref q/D kept I = p/P
q/C m getfield Fieldref q/E kept I = IllegalAccessError
q/C m putfield Fieldref q/E kept I = IllegalAccessError
r/F m getfield Fieldref q/C kept I = p/P
r/F m getfield Fieldref p/P kept I = p/P
r/F m getfield Fieldref r/F kept I = p/P
r/F m getfield Fieldref q/D kept I = IllegalAccessError
q/C m getstatic Fieldref q/E kept_static I = p/P
r/F m putstatic Fieldref q/D kept_static I = p/P
-- protected, from elsewhere
q/B m getfield Fieldref p/P kept I = IllegalAccessError
q/B m getfield Fieldref q/C kept I = IllegalAccessError
q/B m getstatic Fieldref p/P kept_static I = IllegalAccessError
-- kind
q/B m getfield Fieldref p/P open_static I = IncompatibleClassChangeError
q/B m putfield Fieldref p/P open_static I = IncompatibleClassChangeError
q/B m getstatic Fieldref p/P open I = IncompatibleClassChangeError
q/B m putstatic Fieldref p/P open I = IncompatibleClassChangeError
q/C m getfield Fieldref q/E kept_static I = IncompatibleClassChangeError
-- access is asked before kind
p/A m getstatic Fieldref p/P own I = IllegalAccessError
p/A m getfield Fieldref p/P own_static I = IllegalAccessError
q/C m getstatic Fieldref q/E kept I = IllegalAccessError
q/C m getstatic Fieldref p/P near I = IllegalAccessError
-- final fields of objects: read by all, written by `<init>` of their class
p/P <init> putfield Fieldref p/P fixed I = p/P
p/P <init> putfield Fieldref p/P own_fixed I = p/P
p/P <init> putfield Fieldref q/C fixed I = p/P
p/P m putfield Fieldref p/P fixed I = IllegalAccessError
p/P m putfield Fieldref p/P own_fixed I = IllegalAccessError
p/P <clinit> putfield Fieldref p/P fixed I = IllegalAccessError
q/C <init> putfield Fieldref p/P fixed I = IllegalAccessError
q/C <init> putfield Fieldref q/C fixed I = IllegalAccessError
q/C m getfield Fieldref p/P fixed I = p/P
p/P m getfield Fieldref p/P own_fixed I = p/P
-- final static fields: read by all, written by `<clinit>` of their class
p/P <clinit> putstatic Fieldref p/P fixed_static I = p/P
p/P <clinit> putstatic Fieldref q/C fixed_static I = p/P
p/P <init> putstatic Fieldref p/P fixed_static I = IllegalAccessError
p/P m putstatic Fieldref p/P fixed_static I = IllegalAccessError
q/C <clinit> putstatic Fieldref p/P fixed_static I = IllegalAccessError
q/C m getstatic Fieldref p/P fixed_static I = p/P
I <clinit> putstatic Fieldref I constant I = I
q/B <clinit> putstatic Fieldref I constant I = IllegalAccessError
-- kind is asked before what is final
p/P m putfield Fieldref p/P fixed_static I = IncompatibleClassChangeError
p/P m putstatic Fieldref p/P fixed I = IncompatibleClassChangeError";

/// Whether a field was found as a row says.
fn is_found(classes: &Classes<'_>, found: Result<Place, LinkError>, row: &Row<'_>) -> bool {
    match found {
        Ok(place) => {
            class_name(classes, place.class) == row.answer.as_bytes()
                && is_field_at(classes, place, row.name.as_bytes())
        }
        Err(error) => error_name(error) == row.answer.as_bytes(),
    }
}

/// Whether a field is resolved as a row says: by its names, and twice by what is kept of it.
fn resolves(
    classes: &Classes<'_>,
    linked: &mut Linked<'_>,
    site: Site,
    how: Use,
    index: u16,
    row: &Row<'_>,
) -> bool
    requires linked { IsLinked classes.now.world linked.old }
    requires site { IsSite classes.now.world site }
    requires index { HoldsAtNumber classes.now.world site.class (λ l. IsSome (field_operand l.class index)) }
    ensures { IsLinked classes.now.world linked.new }
{
    let named = resolve_field(classes, site, how, index);
    let first = linked.field_at(classes, site, how, index);
    let again = linked.field_at(classes, site, how, index);
    is_found(classes, named, row) && is_found(classes, first, row) && is_found(classes, again, row)
}

/// Whether a field is resolved as a row says.
pub(crate) fn is_right(classes: &Classes<'_>, linked: &mut Linked<'_>, row: &Row<'_>) -> bool
    requires { IsLinked classes.now.world linked.old }
    ensures { IsLinked classes.now.world linked.new }
{
    let Some(site) = site_of(classes, row) else {
        return false;
    };
    let Some(index) = field_index(classes, site.class, row) else {
        return false;
    };
    match use_of(row.how) {
        Some(how) => resolves(classes, linked, site, how, index, row),
        None => false,
    }
}

#[test]
fn fields_resolve(rt: HostRuntime) {
    match RandomState::new(&rt) {
        Ok(state) => {
            let wrong = wrong_row(rt.alloc(), state, CLASSES, Table::Fields, ROWS);
            assert!(rt; wrong == "", "{wrong}");
        }
        Err(_) => assert!(rt; false),
    }
}
