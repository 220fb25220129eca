//! Exception tables (JVMS 4.7.3, 4.10.1.6).

ghost use Rattle.std.specs.Prelude.{◌≡◌};
ghost use Rattle.jv_format.specs.Handlers.{handlers_of};
ghost use Rattle.jv_meaning_typing.specs.Environment.{Environment};
ghost use Rattle.jv_meaning_typing.specs.Typing.{catch_type, catches_throwable};
ghost use Rattle.jv_verify_pass.specs.Inside.Parts.{HasConstants, CatchThrowables};
ghost use Rattle.jv_verify_pass.specs.Tables.{IsCatchType, DoHandlersKeepRules};

use jv_code::Starts;
use jv_format::{ExceptionTable, Handler};
use jv_verify_types::{ConstantTypes, Item};

/// The type that a handler catches (JVMS 4.7.3): that of the class that the index names, Throwable for 0; `None` where it
/// names none.
pub fn catch_type(constants: &ConstantTypes<'_, '_>, index: u16) -> Option<Item>
    ensures { IsCatchType constants.now index result }
{
    if index == 0 {
        Some(constants.throwable())
    } else {
        constants.class_type(index)
    }
}

/// Whether what a handler catches is a Throwable.
fn catches_throwable(constants: &ConstantTypes<'_, '_>, handler: Handler) -> bool
    ensures { (env : Environment) → HasConstants constants.now env → result ≡ catches_throwable env handler }
{
    match catch_type(constants, handler.catch_type) {
        Some(item) => constants.names().flows(item, constants.throwable()),
        None => false,
    }
}

/// Whether what each handler catches is a Throwable.
fn catch_throwables(constants: &ConstantTypes<'_, '_>, handlers: ExceptionTable<'_>) -> bool
    ensures { CatchThrowables constants.now (handlers_of handlers.entry) result }
{
    for place in 0..handlers.len() {
        let Some(handler) = handlers.handler(place) else {
            unreachable!();
        };
        if !catches_throwable(constants, handler) {
            return false;
        }
    }
    true
}

/// Whether each handler covers instructions, begins at one, and catches a Throwable.
pub fn handlers_hold(
    constants: &ConstantTypes<'_, '_>,
    starts: &Starts<'_>,
    handlers: ExceptionTable<'_>,
) -> bool
    ensures { DoHandlersKeepRules constants.now starts.now (handlers_of handlers.entry) result }
{
    starts.handlers_fit(handlers) && catch_throwables(constants, handlers)
}
