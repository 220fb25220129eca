//! What steps ask of fields and methods that are resolved: words, kinds, arguments and code (JVMS 2.3, 2.6, 4.3.3, 4.7.3).

ghost use Rattle.std.specs.Prelude.{IsSome};
ghost use Rattle.jv_meaning_world.specs.Numbers.{HoldsAtNumber};
ghost use Rattle.jv_meaning_typing.specs.Operands.{field_operand, method_operand};
ghost use Rattle.jv_link.specs.Seen.{IsSite};
ghost use Rattle.jv_link_cache.specs.Linked.{IsLinked};

use crate::guest::{Table, wrong_row};
use crate::row::Row;
use crate::site::{field_index, method_index, site_of, use_of};
use jv_link::{LinkError, Site, Use};
use jv_link_cache::{Body, FieldKind, FieldUse, Linked, MethodUse, body_at};
use jv_loader::Classes;
use std::hash::RandomState;

static CLASSES: &str = "\
public X java/lang/Object | private a I | private+static b I | public c J | public+static d J | public m ()V\
 | public take (JI)V | public+static give ([JJLX;)V | public <init> ()V
public Y X | public a [J | public e B | package f Ljava/lang/String; | public+static s S | public+static t LY; | public m ()V
public Z Y | public z Z | public+static u C | public g C | public h S | public m ()V
public+abstract A java/lang/Object | public+abstract m (J)V | public+abstract n ()I | public k ()V
public+interface+abstract I java/lang/Object | public+static+final constant J | public+abstract call (IJ)V";

static FIELDS: &str = "\
X m getfield Fieldref X a I = 0 Int
X m getfield Fieldref X c J = 1 Long
X m putfield Fieldref X c J = 1 Long
Y m getfield Fieldref Y c J = 1 Long
Y m getfield Fieldref Y a [J = 3 Reference
Y m getfield Fieldref Z e B = 4 Byte
Y m getfield Fieldref Y f Ljava/lang/String; = 5 Reference
Z m getfield Fieldref Z z Z = 6 Boolean
Z m putfield Fieldref Z g C = 7 Char
Z m getfield Fieldref Z h S = 8 Short
-- static fields: one class's behind another's, in the order of the files
X m getstatic Fieldref X b I = 0 Int
X m getstatic Fieldref X d J = 1 Long
X m putstatic Fieldref Y s S = 3 Short
X m getstatic Fieldref Y t LY; = 4 Reference
X m getstatic Fieldref Z u C = 5 Char
X m getstatic Fieldref I constant J = 6 Long";

static METHODS: &str = "\
X m invokevirtual Methodref X m ()V = 1 object code
X m invokevirtual Methodref X take (JI)V = 4 object code
X m invokestatic Methodref X give ([JJLX;)V = 4 static code
X m invokespecial Methodref X <init> ()V = 1 object code
X m invokevirtual Methodref A m (J)V = 3 object none
X m invokevirtual Methodref A k ()V = 1 object code
X m invokeinterface InterfaceMethodref I call (IJ)V = 4 object none
X m invokestatic Methodref host/Io write (I)V = 1 static none
X m invokestatic Methodref host/Io read ()I = 0 static none
X m invokevirtual Methodref java/lang/String length ()I = 1 object code";

/// What a kind of field is called.
fn kind_name(kind: FieldKind) -> &'static str {
    match kind {
        FieldKind::Boolean => "Boolean",
        FieldKind::Byte => "Byte",
        FieldKind::Char => "Char",
        FieldKind::Short => "Short",
        FieldKind::Int => "Int",
        FieldKind::Long => "Long",
        FieldKind::Reference => "Reference",
    }
}

/// Whether a word of a row is a number.
fn is_number(word: Option<&str>, number: usize) -> bool {
    match word {
        Some(word) => word.parse::<usize>() == Ok(number),
        None => false,
    }
}

/// Whether a word of a row is a name.
fn is_word(word: Option<&str>, name: &str) -> bool {
    match word {
        Some(word) => word == name,
        None => false,
    }
}

/// Whether a field is used as a row says.
fn is_field_use(found: Result<FieldUse, LinkError>, answer: &str) -> bool {
    let mut words = answer.split_whitespace();
    match found {
        Ok(used) => is_number(words.next(), used.word)
            && is_word(words.next(), kind_name(used.kind)),
        Err(_) => false,
    }
}

/// The same of the field of a constant at a site.
fn uses_field(
    classes: &Classes<'_>,
    linked: &mut Linked<'_>,
    site: Site,
    how: Use,
    index: u16,
    row: &Row<'_>,
) -> bool
    requires linked { IsLinked classes.now.world linked.old }
    requires site { IsSite classes.now.world site }
    requires index { HoldsAtNumber classes.now.world site.class (λ l. IsSome (field_operand l.class index)) }
    ensures { IsLinked classes.now.world linked.new }
{
    let first = linked.field_use(classes, site, how, index);
    let again = linked.field_use(classes, site, how, index);
    is_field_use(first, row.answer) && is_field_use(again, row.answer) && linked.static_words() == 8
}

/// Whether a field is used as a row says.
pub(crate) fn is_field_right(classes: &Classes<'_>, linked: &mut Linked<'_>, row: &Row<'_>) -> bool
    requires { IsLinked classes.now.world linked.old }
    ensures { IsLinked classes.now.world linked.new }
{
    let Some(site) = site_of(classes, row) else {
        return false;
    };
    let Some(index) = field_index(classes, site.class, row) else {
        return false;
    };
    match use_of(row.how) {
        Some(how) => uses_field(classes, linked, site, how, index, row),
        None => false,
    }
}

/// Whether a method's code is what a row says; that of the tests' own methods returns.
fn is_body(body: &Body<'_>, words: usize, receiver: Option<&str>) -> bool {
    let name = if body.has_receiver {
        "object"
    } else {
        "static"
    };
    body.argument_words == words && is_word(receiver, name) && !body.code.code.is_empty()
}

/// Whether a method is called as a row says.
fn is_method_use(classes: &Classes<'_>, found: Result<MethodUse, LinkError>, answer: &str) -> bool {
    let mut words = answer.split_whitespace();
    let Ok(called) = found else {
        return false;
    };
    if !is_number(words.next(), called.argument_words) {
        return false;
    }
    let receiver = words.next();
    match body_at(classes.table(), called.target.declared) {
        Some(body) => {
            is_body(&body, called.argument_words, receiver) && is_word(words.next(), "code")
        }
        None => is_word(words.next(), "none"),
    }
}

/// The same of the method of a constant at a site.
fn uses_method(
    classes: &Classes<'_>,
    linked: &mut Linked<'_>,
    site: Site,
    how: Use,
    index: u16,
    row: &Row<'_>,
) -> bool
    requires linked { IsLinked classes.now.world linked.old }
    requires site { IsSite classes.now.world site }
    requires index { HoldsAtNumber classes.now.world site.class (λ l. IsSome (method_operand l.class index)) }
    ensures { IsLinked classes.now.world linked.new }
{
    let first = linked.method_use(classes, site, how, index);
    let again = linked.method_use(classes, site, how, index);
    is_method_use(classes, first, row.answer) && is_method_use(classes, again, row.answer)
}

/// Whether a method is called as a row says.
pub(crate) fn is_method_right(classes: &Classes<'_>, linked: &mut Linked<'_>, row: &Row<'_>) -> bool
    requires { IsLinked classes.now.world linked.old }
    ensures { IsLinked classes.now.world linked.new }
{
    let Some(site) = site_of(classes, row) else {
        return false;
    };
    let Some(index) = method_index(classes, site.class, row) else {
        return false;
    };
    match use_of(row.how) {
        Some(how) => uses_method(classes, linked, site, how, index, row),
        None => false,
    }
}

#[test]
fn fields_are_used(rt: HostRuntime) {
    match RandomState::new(&rt) {
        Ok(state) => {
            let wrong = wrong_row(rt.alloc(), state, CLASSES, Table::FieldUses, FIELDS);
            assert!(rt; wrong == "", "{wrong}");
        }
        Err(_) => assert!(rt; false),
    }
}

#[test]
fn methods_are_called(rt: HostRuntime) {
    match RandomState::new(&rt) {
        Ok(state) => {
            let wrong = wrong_row(rt.alloc(), state, CLASSES, Table::MethodUses, METHODS);
            assert!(rt; wrong == "", "{wrong}");
        }
        Err(_) => assert!(rt; false),
    }
}
