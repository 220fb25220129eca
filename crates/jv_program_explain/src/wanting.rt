//! What the instruction at which a method breaks a rule wants of the frame before it that isn't there.

ghost use Rattle.std.specs.Prelude.{◌≡◌, ◌<◌, IfOk, IsSome, IsTrue, Some, length};
ghost use Rattle.std.specs.Option.{option_map};
ghost use Rattle.jv_class.specs.Class.{class_of};
ghost use Rattle.jv_class_structure.specs.Seen.{seen_method};
ghost use Rattle.jv_code.specs.Insns.{instruction_of};
ghost use Rattle.jv_explain.specs.Explained.{is_at_instruction};
ghost use Rattle.jv_meaning_typing.specs.Environment.{Environment};
ghost use Rattle.jv_meaning_typing.specs.Judgement.{IsFirstFault};
ghost use Rattle.jv_meaning_typing.specs.declared.verdict.Verdict.TheVariants.{Verify};
ghost use Rattle.jv_meaning_world.specs.Numbers.{HoldsAtNumber};
ghost use Rattle.jv_operands.specs.Seen.{seen_unmet};
ghost use Rattle.jv_operands.specs.Unmet.{first_unmet};
ghost use Rattle.jv_pool.specs.Constants.{utf8_at};
ghost use Rattle.jv_text.specs.Descriptor.{MethodDescriptor};
ghost use Rattle.jv_text.specs.Seen.{seen_result};
ghost use Rattle.jv_text.specs.Types.{method_type_of};
ghost use Rattle.jv_verify.specs.Before.{seen_frame};
ghost use Rattle.jv_program_explain.specs.Frames.{want_text};
ghost use Rattle.jv_program_explain.specs.Inside.Numbered.{IsJudgedAt};
ghost use Rattle.jv_program_explain.specs.Inside.Wanting.{IsEnvironmentOf, IsUnmetWantOf};

use jv_class::{ClassFile, Method};
use jv_code::{Code, Insn, stands_in_list};
use jv_link::class_at;
use jv_loader::{ClassTable, Classes};
use jv_meaning_typing::VerifyFault;
use jv_operands::{FrameTypes, MethodParts, ShownUnmet, UnmetWant, first_unmet};
use jv_text::{FieldType, method_shape, types_agree};
use jv_verify::NamedFrame;
use std::alloc::{AllocError, Global};
use std::fmt;

/// A want that is not met, where there is one, as it is printed.
#[derive(Clone, Copy)]
pub(crate) struct ShownWant<'a>(pub(crate) Option<UnmetWant<&'a [u8]>>);

impl fmt::Display for ShownWant<'_> {
    ghost output = { λ shown. Some (want_text (option_map seen_unmet shown.0)) };

    fn fmt<W: fmt::Write>(&self, f: &mut fmt::Formatter<W>) -> fmt::Result {
        match self.0 {
            Some(unmet) => {
                let shown = ShownUnmet(unmet);
                write!(f, "{shown}")
            }
            None => Ok(()),
        }
    }
}

/// The type of the result that a method descriptor describes.
fn result_of<'a>(descriptor: &'a [u8]) -> Option<FieldType<'a>>
    ensures { (method : MethodDescriptor) → method_type_of descriptor.now ≡ Some method → seen_result result ≡ method.result }
{
    types_agree();
    match method_shape(descriptor) {
        Ok(shape) => shape.result,
        Err(_) => None,
    }
}

/// The first want of an instruction of a method that a frame doesn't meet. The file is that of its class, which has this name.
fn want_of<'a>(
    alloc: Global,
    table: &ClassTable<'a>,
    file: &ClassFile<'a>,
    class: &'a [u8],
    method: &Method<'a>,
    insn: &Insn<&'a [u8]>,
    frame: &NamedFrame<'a>,
) -> Result<Option<UnmetWant<&'a [u8]>>, AllocError>
    requires name { IsSome (utf8_at file.now.constant_pool method.now.name.0) }
    requires descriptor { IsSome (utf8_at file.now.constant_pool method.now.descriptor.0) }
    ensures { (env : Environment) → env.world ≡ table.now → IsEnvironmentOf file.now class.now (seen_method method.now) env
        → IfOk result (λ want. option_map seen_unmet want ≡ first_unmet env (instruction_of insn.now) (seen_frame frame.now)) }
{
    let pool = file.pool();
    let parts = MethodParts {
        pool,
        class,
        name: pool.utf8(method.name),
        result: result_of(pool.utf8(method.descriptor)),
    };
    let types = FrameTypes {
        locals: frame.locals.as_slice(),
        stack: frame.stack.as_slice(),
    };
    first_unmet(alloc, table, &parts, insn, types)
}

/// The first want of the instruction at which a method of the class with a number breaks a rule that a frame doesn't meet. The file is that
/// of the class.
fn want_in<'a>(
    alloc: Global,
    classes: &Classes<'a>,
    class: usize,
    file: &ClassFile<'a>,
    fault: VerifyFault,
    frame: &NamedFrame<'a>,
) -> Result<Option<UnmetWant<&'a [u8]>>, AllocError>
    requires class { class < length classes.now.world }
    requires file { HoldsAtNumber classes.now.world class (λ l. class_of file.now ≡ Some l.class) }
    requires judged { HoldsAtNumber classes.now.world class (λ l. IsFirstFault classes.now.world l fault) }
    requires instruction { IsTrue (is_at_instruction fault.rule) }
    ensures { IfOk result (λ want. HoldsAtNumber classes.now.world class (λ l.
        IsUnmetWantOf classes.now.world l fault (Some (seen_frame frame.now)) (option_map seen_unmet want))) }
{
    stands_in_list();
    let number = usize::from(fault.method);
    let Some(method) = file.method(number) else {
        unreachable!();
    };
    let Some(body) = method.code() else {
        unreachable!();
    };
    let Ok(code) = Code::read(body.code) else {
        unreachable!();
    };
    let (insn, _next) = code.insn_at(fault.offset);
    let table = classes.table();
    let name = class_at(table, class).name();
    want_of(alloc, table, file, name, &method, &insn, frame)
}

/// The first want of the instruction at which a method of the class with a number breaks a rule that the frame before it doesn't meet,
/// where there is such a frame.
pub(crate) fn unmet_want<'a>(
    alloc: Global,
    classes: &Classes<'a>,
    class: usize,
    fault: VerifyFault,
    before: Option<&NamedFrame<'a>>,
) -> Result<Option<UnmetWant<&'a [u8]>>, AllocError>
    requires judged { IsJudgedAt classes.now.world class (Verify fault) }
    requires instruction { IsTrue (is_at_instruction fault.rule) }
    ensures { IfOk result (λ want. HoldsAtNumber classes.now.world class (λ l. IsUnmetWantOf classes.now.world l fault
        (option_map (λ f. seen_frame f.now) before.entry) (option_map seen_unmet want))) }
{
    let Some(frame) = before else {
        return Ok(None);
    };
    let Some(file) = class_at(classes.table(), class).file() else {
        unreachable!();
    };
    want_in(alloc, classes, class, file, fault, frame)
}
