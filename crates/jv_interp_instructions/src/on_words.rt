//! Instructions that work on a frame's words alone.

ghost use Rattle.std.specs.Prelude.{ℕ, IfSome};
ghost use Rattle.jv_code.specs.Insns.{instruction_of};
ghost use Rattle.jv_code.specs.declared.insn.Insn.TheVariants.{Branch as BranchInsn, Division as DivisionInsn, ReturnValue as ReturnValueInsn};
ghost use Rattle.jv_interp_words.specs.Going.{CanWork, StaysIn};
ghost use Rattle.jv_interp_heap.specs.ObjectsInBlocks.{Blocks};
ghost use Rattle.jv_interp_instructions.specs.OnWords.{AnswersOnWords, DoneOnWords, KeysRise};
ghost use Rattle.jv_interp_held.specs.declared.effect.Effect.TheVariants.{Goes};
ghost use Rattle.jv_interp_held.specs.Executing.{IsUnmoved, place};
ghost use Rattle.jv_interp_held.specs.declared.held.Held.{Held};

use jv_code::{DivisionOperator, Insn, NumberKind, Test, ValueKind};
use jv_interp_heap::{ARITHMETIC, system_has_numbers};
use jv_interp_held::Effect;
use jv_interp_words::{
    Registers, compute, divide, if_int, if_ints, if_null, if_same, increment, jump, load,
    lookup_switch, move_words, nop, push_null, store, store_long, table_switch,
};

/// A branch, by its test.
fn execute_branch<'l>(words: &[u32], at: &mut Registers<'l>, next: u32, test: Test, distance: i32)
    requires { CanWork (BranchInsn test distance) next at.old words.now }
    ensures done { DoneOnWords (BranchInsn test distance) next at.old words.now at.new words.now Goes }
    ensures stays { StaysIn at.old at.new words.now }
{
    match test {
        Test::IfInt(condition) => if_int(words, at, next, condition, distance),
        Test::IfInts(condition) => if_ints(words, at, next, condition, distance),
        Test::IfReferences(equality) => if_same(words, at, next, equality, distance),
        Test::IfNull(equality) => if_null(words, at, next, equality, distance),
    }
}

/// A division: an ArithmeticException is to be thrown where the divisor is 0.
#[inline(always)]
pub(crate) fn execute_division<'l>(
    words: &mut [u32],
    at: &mut Registers<'l>,
    next: u32,
    kind: NumberKind,
    operator: DivisionOperator,
) -> Effect
    requires { CanWork (DivisionInsn kind operator) next at.old words.old }
    ensures done { DoneOnWords (DivisionInsn kind operator) next at.old words.old at.new words.new result }
    ensures stays { StaysIn at.old at.new words.new }
    ensures unmoved { (held : Held) (blocks : Blocks) → IsUnmoved result (place at.old words.old held blocks)
        (place at.new words.new held blocks) }
{
    system_has_numbers();
    if divide(words, at, next, kind, operator) {
        Effect::Goes
    } else {
        Effect::Raises { class: ARITHMETIC }
    }
}

/// A return with a value of a kind: its words are on top.
#[inline(always)]
pub(crate) fn execute_return<'l>(words: &[u32], at: &Registers<'l>, kind: ValueKind) -> Effect
    ensures { (next : ℕ) → DoneOnWords (ReturnValueInsn kind) next at.now words.now at.now words.now result }
{
    // Only the clauses speak of these.
    let _words = words;
    let _at = at;
    match kind {
        ValueKind::Int => Effect::Leaves { words: 1 },
        ValueKind::Long => Effect::Leaves { words: 2 },
        ValueKind::Reference => Effect::Leaves { words: 1 },
    }
}

/// Executes an instruction where it works on words alone, and answers its effect; else nothing is done.
#[inline(always)]
pub(crate) fn execute_on_words<'l>(
    words: &mut [u32],
    at: &mut Registers<'l>,
    next: u32,
    insn: Insn<&[u8]>,
) -> Option<Effect>
    requires can { CanWork (instruction_of insn) next at.old words.old }
    requires keys { KeysRise (instruction_of insn) }
    ensures done { AnswersOnWords (instruction_of insn.entry) next at.old words.old at.new words.new result }
    ensures stays { StaysIn at.old at.new words.new }
    ensures unmoved { IfSome result (λ effect. (held : Held) (blocks : Blocks) → IsUnmoved effect (place at.old words.old held blocks)
        (place at.new words.new held blocks)) }
{
    match insn {
        Insn::Nop => {
            nop(words, at, next);
            Some(Effect::Goes)
        }
        Insn::NullConstant => {
            push_null(words, at, next);
            Some(Effect::Goes)
        }
        Insn::Compute(what) => {
            compute(words, at, next, what);
            Some(Effect::Goes)
        }
        Insn::Load(kind, index, form) => {
            load(words, at, next, kind, index, form);
            Some(Effect::Goes)
        }
        Insn::Store(kind, index, form) => {
            store(words, at, next, kind, index, form);
            Some(Effect::Goes)
        }
        Insn::StoreLong(index, form) => {
            store_long(words, at, next, index, form);
            Some(Effect::Goes)
        }
        Insn::Stack(form) => {
            move_words(words, at, next, form);
            Some(Effect::Goes)
        }
        Insn::Increment(index, by, form) => {
            increment(words, at, next, index, i32::from(by), form);
            Some(Effect::Goes)
        }
        Insn::Branch(test, distance) => {
            execute_branch(words, at, next, test, i32::from(distance));
            Some(Effect::Goes)
        }
        Insn::Goto(distance, form) => {
            jump(words, at, next, distance, form);
            Some(Effect::Goes)
        }
        Insn::TableSwitch(padding, default, low, high, distances) => {
            table_switch(words, at, next, padding, default, low, high, distances);
            Some(Effect::Goes)
        }
        Insn::LookupSwitch(padding, default, pairs) => {
            lookup_switch(words, at, next, padding, default, pairs);
            Some(Effect::Goes)
        }
        Insn::Division(kind, operator) => Some(execute_division(words, at, next, kind, operator)),
        Insn::ReturnValue(kind) => Some(execute_return(words, at, kind)),
        Insn::Return => Some(Effect::Leaves { words: 0 }),
        _ => None,
    }
}
