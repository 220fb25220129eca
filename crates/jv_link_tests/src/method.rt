//! What methods resolve to (JVMS 5.4.3.3, 5.4.3.4, 5.4.4, 6.5), and how tables say which method runs.

ghost use Rattle.std.specs.Prelude.{IsSome, IfSome};
ghost use Rattle.jv_meaning_world.specs.Numbers.{HoldsAtNumber};
ghost use Rattle.jv_meaning_typing.specs.Operands.{method_operand};
ghost use Rattle.jv_link.specs.Seen.{IsSite, IsMethodTarget};
ghost use Rattle.jv_link.specs.Objects.{IsObject};
ghost use Rattle.jv_link_cache.specs.Linked.{IsLinked};

use crate::guest::{Table, wrong_row};
use crate::named::{class_name, error_name, is_method_at};
use crate::row::Row;
use crate::site::{method_index, site_of, use_of};
use jv_link::{LinkError, MethodTarget, Site, Use, resolve_method, select};
use jv_link_cache::Linked;
use jv_loader::Classes;
use std::hash::RandomState;

static CLASSES: &str = "\
public p/P java/lang/Object\
 | public m ()V | private own ()V | package near ()V | protected kept ()V | public open ()V\
 | private+static own_static ()V | package+static near_static ()V | protected+static kept_static ()V | public+static open_static ()V\
 | public <init> ()V | protected <init> (I)V | private <init> (J)V
public p/A java/lang/Object | public m ()V
public q/B java/lang/Object | public m ()V
public q/C p/P | public m ()V
public q/D q/C | public <init> (I)V
public q/E p/P
public r/F q/C | public m ()V
package p/H java/lang/Object | public open ()V
public+abstract p/T java/lang/Object | public+abstract open ()V
-- classes with errors of their own
public O O
public NoSuper Missing
public S I
-- interfaces: call is a default in I, K and L, private in V, static in W and Z, and abstract in B, N and R
public A java/lang/Object | public m ()V
public+interface+abstract I java/lang/Object | public m ()V | public call ()V
public+interface+abstract K java/lang/Object | public call ()V
public+interface+abstract J java/lang/Object I
public+interface+abstract L java/lang/Object I | public call ()V
public+interface+abstract V java/lang/Object | public m ()V | private call ()V
public+interface+abstract W java/lang/Object | public+static call ()V
public+interface+abstract Z java/lang/Object I | public+static call ()V
public+interface+abstract B java/lang/Object | public+abstract call ()V
public+interface+abstract N java/lang/Object | public+abstract call ()V
public+interface+abstract R java/lang/Object I | public+abstract call ()V
public+interface+abstract E java/lang/Object
package+interface+abstract p/X java/lang/Object | public call ()V
public OwnPrivate java/lang/Object | private call ()V
public BelowPrivate OwnPrivate I
public WithB java/lang/Object B
public WithN WithB N
public WithIK java/lang/Object I K
public WithIL java/lang/Object I L
public WithBK java/lang/Object B K
public WithIR java/lang/Object I R
public WithVW java/lang/Object V W
public WithJ java/lang/Object J
-- of other versions
public@50 Old java/lang/Object R51 | public m ()V
public+interface+abstract@51 R51 java/lang/Object B | public+abstract call ()V";

static ROWS: &str = "\
-- where it is declared
p/P m invokevirtual Methodref p/P own ()V = p/P
q/B m invokevirtual Methodref p/P open ()V = p/P
q/B m invokevirtual Methodref q/D open ()V = p/P
q/B m invokestatic Methodref q/D open_static ()V = p/P
q/B m invokevirtual Methodref p/T open ()V = p/T
q/B m invokevirtual Methodref q/D equals (Ljava/lang/Object;)Z = java/lang/Object
-- not there: no such name, another type
q/B m invokevirtual Methodref q/B open ()V = NoSuchMethodError
q/B m invokevirtual Methodref p/P none ()V = NoSuchMethodError
q/B m invokevirtual Methodref p/P open ()I = NoSuchMethodError
q/B m invokestatic Methodref p/P none ()V = NoSuchMethodError
-- superinterfaces: the most specific default, and of several that are not, or none, the first
A m invokevirtual Methodref WithJ call ()V = I
A m invokevirtual Methodref WithIL call ()V = L
A m invokevirtual Methodref WithBK call ()V = K
A m invokevirtual Methodref WithIK call ()V = I
A m invokevirtual Methodref WithIR call ()V = I
A m invokevirtual Methodref WithB call ()V = B
A m invokevirtual Methodref WithN call ()V = N
-- neither a private nor a static one is inherited from an interface
A m invokevirtual Methodref WithVW call ()V = NoSuchMethodError
-- a method of a superclass, a private one too, comes before a default
A m invokevirtual Methodref BelowPrivate call ()V = IllegalAccessError
-- of an interface: its own, then a public one of java/lang/Object, and then a superinterface's
A m invokeinterface InterfaceMethodref I call ()V = I
A m invokeinterface InterfaceMethodref J call ()V = I
A m invokeinterface InterfaceMethodref L call ()V = L
A m invokeinterface InterfaceMethodref R call ()V = R
A m invokeinterface InterfaceMethodref B call ()V = B
A m invokeinterface InterfaceMethodref E equals (Ljava/lang/Object;)Z = java/lang/Object
A m invokeinterface InterfaceMethodref E call ()V = NoSuchMethodError
A m invokestatic InterfaceMethodref E call ()V = NoSuchMethodError
A m invokestatic InterfaceMethodref W call ()V = W
A m invokestatic InterfaceMethodref Z call ()V = Z
A m invokespecial InterfaceMethodref I call ()V = I
V m invokespecial InterfaceMethodref V call ()V = V
-- no version is asked for
Old m invokevirtual Methodref Old call ()V = R51
Old m invokestatic InterfaceMethodref W call ()V = W
A m invokeinterface InterfaceMethodref R51 call ()V = R51
A m invokevirtual Methodref Old m ()V = Old
-- the constant is of the kind of its class, which is asked before the method
A m invokestatic Methodref W call ()V = IncompatibleClassChangeError
A m invokevirtual Methodref I call ()V = IncompatibleClassChangeError
A m invokevirtual Methodref I none ()V = IncompatibleClassChangeError
A m invokeinterface InterfaceMethodref WithIK call ()V = IncompatibleClassChangeError
A m invokeinterface InterfaceMethodref WithIK none ()V = IncompatibleClassChangeError
A m invokestatic InterfaceMethodref p/P open_static ()V = IncompatibleClassChangeError
A m invokeinterface InterfaceMethodref [I call ()V = IncompatibleClassChangeError
-- arrays have the methods of java/lang/Object
A m invokevirtual Methodref [I equals (Ljava/lang/Object;)Z = java/lang/Object
A m invokevirtual Methodref [[LA; equals (Ljava/lang/Object;)Z = java/lang/Object
A m invokevirtual Methodref [LA; m ()V = NoSuchMethodError
A m invokevirtual Methodref [I clone ()Ljava/lang/Object; = NoSuchMethodError
-- errors of the class come before those of the method
q/B m invokevirtual Methodref Missing open ()V = NoClassDefFoundError
q/B m invokevirtual Methodref NoSuper open ()V = NoClassDefFoundError
q/B m invokevirtual Methodref O open ()V = ClassCircularityError
q/B m invokevirtual Methodref S open ()V = IncompatibleClassChangeError
q/B m invokevirtual Methodref p/H open ()V = IllegalAccessError
q/B m invokevirtual Methodref p/H none ()V = IllegalAccessError
q/B m invokevirtual Methodref [LMissing; equals (Ljava/lang/Object;)Z = NoClassDefFoundError
q/B m invokevirtual Methodref [Lp/H; equals (Ljava/lang/Object;)Z = IllegalAccessError
p/A m invokevirtual Methodref p/H open ()V = p/H
q/B m invokeinterface InterfaceMethodref p/X call ()V = IllegalAccessError
q/B m invokevirtual Methodref p/X call ()V = IllegalAccessError
p/A m invokevirtual Methodref p/X call ()V = IncompatibleClassChangeError
-- private
q/C m invokevirtual Methodref p/P own ()V = IllegalAccessError
p/A m invokevirtual Methodref p/P own ()V = IllegalAccessError
p/A m invokestatic Methodref p/P own_static ()V = IllegalAccessError
p/P m invokestatic Methodref q/D own_static ()V = p/P
A m invokeinterface InterfaceMethodref V call ()V = IllegalAccessError
A m invokespecial InterfaceMethodref V call ()V = IllegalAccessError
-- package-private: the package is that of the class that declares it
p/A m invokevirtual Methodref p/P near ()V = p/P
p/A m invokevirtual Methodref q/C near ()V = p/P
q/C m invokevirtual Methodref p/P near ()V = IllegalAccessError
q/C m invokevirtual Methodref q/C near ()V = IllegalAccessError
q/C m invokestatic Methodref q/C near_static ()V = IllegalAccessError
-- protected, from its package
p/A m invokevirtual Methodref p/P kept ()V = p/P
p/A m invokevirtual Methodref q/E kept ()V = p/P
-- protected, from a subclass: the named class is above it, the same, below it and beside it
q/C m invokevirtual Methodref p/P kept ()V = p/P
q/C m invokevirtual Methodref q/C kept ()V = p/P
q/C m invokevirtual Methodref q/D kept ()V = p/P
q/C m invokevirtual Methodref q/E kept ()V = IllegalAccessError
r/F m invokevirtual Methodref p/P kept ()V = p/P
r/F m invokevirtual Methodref q/C kept ()V = p/P
r/F m invokevirtual Methodref r/F kept ()V = p/P
r/F m invokevirtual Methodref q/D kept ()V = IllegalAccessError
q/C m invokestatic Methodref q/E kept_static ()V = p/P
r/F m invokestatic Methodref q/D kept_static ()V = p/P
-- protected, from elsewhere
q/B m invokevirtual Methodref p/P kept ()V = IllegalAccessError
q/B m invokevirtual Methodref q/C kept ()V = IllegalAccessError
q/B m invokestatic Methodref p/P kept_static ()V = IllegalAccessError
-- kind
q/B m invokestatic Methodref p/P open ()V = IncompatibleClassChangeError
q/B m invokevirtual Methodref p/P open_static ()V = IncompatibleClassChangeError
q/B m invokespecial Methodref p/P open_static ()V = IncompatibleClassChangeError
q/C m invokevirtual Methodref q/E kept_static ()V = IncompatibleClassChangeError
A m invokestatic InterfaceMethodref I call ()V = IncompatibleClassChangeError
A m invokeinterface InterfaceMethodref W call ()V = IncompatibleClassChangeError
A m invokeinterface InterfaceMethodref Z call ()V = IncompatibleClassChangeError
A m invokespecial InterfaceMethodref W call ()V = IncompatibleClassChangeError
V m invokeinterface InterfaceMethodref V call ()V = IncompatibleClassChangeError
V m invokestatic InterfaceMethodref V call ()V = IncompatibleClassChangeError
-- access is asked before kind
p/A m invokestatic Methodref p/P own ()V = IllegalAccessError
p/A m invokevirtual Methodref p/P own_static ()V = IllegalAccessError
q/C m invokestatic Methodref q/E kept ()V = IllegalAccessError
A m invokestatic InterfaceMethodref V call ()V = IllegalAccessError
-- `<init>` is declared by the class that is named, which is asked behind access
q/C m invokespecial Methodref p/P <init> ()V = p/P
q/B m invokespecial Methodref p/P <init> ()V = p/P
q/B m invokespecial Methodref q/E <init> ()V = NoSuchMethodError
q/B m invokespecial Methodref q/D <init> ()V = NoSuchMethodError
q/B m invokespecial Methodref q/D <init> (I)V = q/D
q/C m invokespecial Methodref p/P <init> (I)V = p/P
q/B m invokespecial Methodref p/P <init> (I)V = IllegalAccessError
q/C m invokespecial Methodref q/E <init> (I)V = IllegalAccessError
q/C m invokespecial Methodref q/C <init> (I)V = NoSuchMethodError
p/P m invokespecial Methodref p/P <init> (J)V = p/P
q/B m invokespecial Methodref p/P <init> (J)V = IllegalAccessError
q/B m invokespecial Methodref q/E <init> (J)V = IllegalAccessError";

/// Whether the class that a target has for the one that was named is that class, or for an array
/// java/lang/Object.
fn is_of_named(classes: &Classes<'_>, named: usize, text: &str) -> bool {
    let name = class_name(classes, named);
    if text.starts_with("[") {
        name == b"java/lang/Object".as_slice()
    } else {
        name == text.as_bytes()
    }
}

/// Whether a target is the one that a row says.
fn is_target(classes: &Classes<'_>, target: &MethodTarget, row: &Row<'_>) -> bool {
    class_name(classes, target.declared.class) == row.answer.as_bytes()
        && is_of_named(classes, target.named, row.named)
        && is_method_at(
            classes,
            target.declared,
            row.name.as_bytes(),
            row.descriptor.as_bytes(),
        )
}

/// Whether a call answered what a row says.
fn is_found(classes: &Classes<'_>, found: Result<MethodTarget, LinkError>, row: &Row<'_>) -> bool {
    match found {
        Ok(target) => is_target(classes, &target, row),
        Err(error) => error_name(error) == row.answer.as_bytes(),
    }
}

/// Whether a method is resolved as a row says: by its names, and twice by what is kept of it.
fn is_resolved(
    classes: &Classes<'_>,
    linked: &mut Linked<'_>,
    site: Site,
    how: Use,
    index: u16,
    row: &Row<'_>,
) -> bool
    requires linked { IsLinked classes.now.world linked.old }
    requires site { IsSite classes.now.world site }
    requires index { HoldsAtNumber classes.now.world site.class (λ l. IsSome (method_operand l.class index)) }
    ensures { IsLinked classes.now.world linked.new }
{
    let named = resolve_method(classes, site, how, index);
    let first = linked.method_at(classes, site, how, index);
    let again = linked.method_at(classes, site, how, index);
    is_found(classes, named, row) && is_found(classes, first, row) && is_found(classes, again, row)
}

/// Whether a method is resolved as a row says.
pub(crate) fn resolves(classes: &Classes<'_>, linked: &mut Linked<'_>, row: &Row<'_>) -> bool
    requires { IsLinked classes.now.world linked.old }
    ensures { IsLinked classes.now.world linked.new }
{
    let Some(site) = site_of(classes, row) else {
        return false;
    };
    let Some(index) = method_index(classes, site.class, row) else {
        return false;
    };
    match use_of(row.how) {
        Some(how) => is_resolved(classes, linked, site, how, index, row),
        None => false,
    }
}

/// The class of an object, by its number, where it can be loaded.
fn class_of_object(classes: &Classes<'_>, name: &str) -> Option<Option<usize>>
    ensures { IfSome result (IsObject classes.now.world) }
{
    let table = classes.table();
    let number = table.find(name.as_bytes())?;
    if number < table.count() && table.is_loadable(number) {
        Some(Some(number))
    } else {
        None
    }
}

/// The object of a row: of a class, or an array.
fn object_of(classes: &Classes<'_>, row: &Row<'_>) -> Option<Option<usize>>
    ensures { IfSome result (IsObject classes.now.world) }
{
    if row.object == "[" {
        Some(None)
    } else {
        class_of_object(classes, row.object)
    }
}

/// Whether the method that a row says runs, of the one that is resolved: by its names, and twice by what is kept of it.
fn is_selected(
    classes: &Classes<'_>,
    linked: &mut Linked<'_>,
    site: Site,
    how: Use,
    target: &MethodTarget,
    object: Option<usize>,
    row: &Row<'_>,
) -> bool
    requires linked { IsLinked classes.now.world linked.old }
    requires site { IsSite classes.now.world site }
    requires target { IsMethodTarget classes.now.world target.now }
    requires object { IsObject classes.now.world object }
    ensures { IsLinked classes.now.world linked.new }
{
    let named = select(classes, site, how, target, object);
    let first = linked.select_at(classes, site, how, target, object);
    let again = linked.select_at(classes, site, how, target, object);
    is_found(classes, named, row) && is_found(classes, first, row) && is_found(classes, again, row)
}

/// Whether the method that a row says runs.
fn runs(
    classes: &Classes<'_>,
    linked: &mut Linked<'_>,
    site: Site,
    how: Use,
    index: u16,
    row: &Row<'_>,
) -> bool
    requires linked { IsLinked classes.now.world linked.old }
    requires site { IsSite classes.now.world site }
    requires index { HoldsAtNumber classes.now.world site.class (λ l. IsSome (method_operand l.class index)) }
    ensures { IsLinked classes.now.world linked.new }
{
    let target = linked.method_at(classes, site, how, index);
    match (target, object_of(classes, row)) {
        (Ok(target), Some(object)) => {
            is_selected(classes, linked, site, how, &target, object, row)
        }
        _ => false,
    }
}

/// Whether the method that a row says runs.
pub(crate) fn selects(classes: &Classes<'_>, linked: &mut Linked<'_>, row: &Row<'_>) -> bool
    requires { IsLinked classes.now.world linked.old }
    ensures { IsLinked classes.now.world linked.new }
{
    let Some(site) = site_of(classes, row) else {
        return false;
    };
    let Some(index) = method_index(classes, site.class, row) else {
        return false;
    };
    match use_of(row.how) {
        Some(how) => runs(classes, linked, site, how, index, row),
        None => false,
    }
}

#[test]
fn methods_resolve(rt: HostRuntime) {
    match RandomState::new(&rt) {
        Ok(state) => {
            let wrong = wrong_row(rt.alloc(), state, CLASSES, Table::Methods, ROWS);
            assert!(rt; wrong == "", "{wrong}");
        }
        Err(_) => assert!(rt; false),
    }
}
