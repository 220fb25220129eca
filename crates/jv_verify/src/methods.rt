//! The methods of a class against all rules.

ghost use Rattle.std.specs.Prelude.{◌≡◌, ◌↔◌, ◌<◌, None, Some, IsTrue, IfOk, IfSome, IsSome, length, slice_get};
ghost use Rattle.std.specs.List.{All};
ghost use Rattle.jv_class.specs.Class.{class_of};
ghost use Rattle.jv_class_structure.specs.Parts.{methods_of};
ghost use Rattle.jv_class_structure.specs.Seen.{seen_method};
ghost use Rattle.jv_meaning_world.specs.Numbers.{HoldsAtNumber};
ghost use Rattle.jv_verify.specs.Methods.{AreJudged};
ghost use Rattle.jv_verify.specs.Inside.Shown.{method_in, AreMethodsOf, IsJudgedIn};

use crate::check::check_method;
use jv_class::{ClassFile, Method};
use jv_link::class_at;
use jv_loader::Classes;
use jv_meaning_typing::VerifyFault;
use jv_verify_pass::{CodeFault, FrameRoom};
use jv_verify_types::{ConstantTypes, CurrentClass};
use std::alloc::{AllocError, Global};
use std::hash::RandomState;

/// The first rule that a method breaks, where it has code.
fn check_code<'a>(
    alloc: Global,
    room: &mut FrameRoom,
    class: &CurrentClass<'_, '_, 'a>,
    method: &Method<'a>,
) -> Result<Option<CodeFault>, AllocError>
    requires { IsSome (method_in class.now.by.class.constant_pool (seen_method method.now)) }
    ensures { IsJudgedIn class.now (seen_method method.now) result }
{
    match method.code() {
        Some(code) => check_method(alloc, room, class, method, &code),
        None => Ok(None),
    }
}

/// A fault in the code of the method at a place.
fn fault_at(method: u16, fault: CodeFault) -> VerifyFault
    ensures method { result.method ≡ method }
    ensures offset { result.offset ≡ fault.offset }
    ensures rule { result.rule ≡ fault.rule }
{
    VerifyFault {
        method,
        offset: fault.offset,
        rule: fault.rule,
    }
}

/// The first rule that the method at a place breaks, where it has code.
fn check_code_at<'a>(
    alloc: Global,
    room: &mut FrameRoom,
    class: &CurrentClass<'_, '_, 'a>,
    file: &ClassFile<'a>,
    place: usize,
) -> Result<Option<CodeFault>, AllocError>
    requires { IfSome (slice_get (methods_of file.now) place) (λ m. IsSome (method_in class.now.by.class.constant_pool m)) }
    ensures { IfSome (slice_get (methods_of file.now) place) (λ m. IsJudgedIn class.now m result) }
{
    match file.method(place) {
        Some(method) => check_code(alloc, room, class, &method),
        None => Ok(None),
    }
}

/// The first rule that the first ill-typed of the methods of a class breaks.
fn first_fault<'a>(
    alloc: Global,
    class: &CurrentClass<'_, '_, 'a>,
    file: &ClassFile<'a>,
) -> Result<Option<VerifyFault>, AllocError>
    requires methods { AreMethodsOf class.now.by (methods_of file.now) }
    requires count { length (methods_of file.now) < 65536 }
    ensures { IfOk result (AreJudged class.now.types.world class.now.by) }
{
    let mut room = FrameRoom::new(alloc)?;
    for place in 0..file.method_count() {
        if let Some(fault) = check_code_at(alloc, &mut room, class, file, place)? {
            return Ok(Some(fault_at(place as u16, fault)));
        }
    }
    Ok(None)
}

/// The first rule that the first ill-typed method of the class of a file breaks, where a method has code.
fn check_file<'a>(
    alloc: Global,
    state: RandomState,
    classes: &Classes<'a>,
    class: usize,
    file: &ClassFile<'a>,
) -> Result<Option<VerifyFault>, AllocError>
    requires class { class < length classes.now.world }
    requires file { HoldsAtNumber classes.now.world class (λ l. class_of file.now ≡ Some l.class) }
    ensures { IfOk result (λ fault. HoldsAtNumber classes.now.world class (λ l. AreJudged classes.now.world l fault)) }
{
    file.is_well_formed();
    let constants = ConstantTypes::new(alloc, state, classes.table(), file.pool())?;
    let current = CurrentClass::new(alloc, classes, class, file, &constants)?;
    first_fault(alloc, &current, file)
}

/// Whether the method at a place has no code; also where there is none.
fn has_no_code_at(file: &ClassFile<'_>, place: usize) -> bool
    ensures { IsTrue result ↔ IfSome (slice_get (methods_of file.now) place) (λ m. m.code ≡ None) }
{
    match file.method(place) {
        Some(method) => !method.has_code(),
        None => true,
    }
}

/// Whether no method has code.
fn has_no_code(file: &ClassFile<'_>) -> bool
    ensures { IsTrue result ↔ All (λ m. m.code ≡ None) (methods_of file.now) }
{
    (0..file.method_count()).all(|place| has_no_code_at(file, place))
}

/// The first rule that the first ill-typed method of the class of a file breaks. Takes no memory where no method has code.
fn check_shown<'a>(
    alloc: Global,
    state: RandomState,
    classes: &Classes<'a>,
    class: usize,
    file: &ClassFile<'a>,
) -> Result<Option<VerifyFault>, AllocError>
    requires class { class < length classes.now.world }
    requires file { HoldsAtNumber classes.now.world class (λ l. class_of file.now ≡ Some l.class) }
    ensures { IfOk result (λ fault. HoldsAtNumber classes.now.world class (λ l. AreJudged classes.now.world l fault)) }
{
    if has_no_code(file) {
        Ok(None)
    } else {
        check_file(alloc, state, classes, class, file)
    }
}

/// Checks the methods of the class with a number: the first method that is not type safe, the first rule that it breaks
/// (JVMS 4.10.1), and where; `None` where each method with code has a typing. Names are hashed with the state.
///
/// # Errors
///
/// Where the host had no memory for what is known of the class, or for the frames of a method.
pub fn check_methods<'a>(
    alloc: Global,
    state: RandomState,
    classes: &Classes<'a>,
    class: usize,
) -> Result<Option<VerifyFault>, AllocError>
    requires { class < length classes.now.world }
    ensures { IfOk result (λ fault. HoldsAtNumber classes.now.world class (λ l. AreJudged classes.now.world l fault)) }
{
    match class_at(classes.table(), class).file() {
        Some(file) => check_shown(alloc, state, classes, class, file),
        None => Ok(None),
    }
}
