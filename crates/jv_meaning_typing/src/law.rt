//! Laws of type checking.

ghost use Rattle.jv_meaning_typing.specs.Laws.{InstructionAtIs, OneFalls, OneJudgement, OneJudgementOfFile, TypingGrows, TypingIsLocal, TypingOrFault};
ghost use Rattle.jv_meaning_typing.specs.Rows.Worked.{WorkedRows};
ghost use Rattle.jv_meaning_typing.specs.Rows.Verdicts.{VerdictRows};

use jv_code::{one_list, stands_in_list, starts_apart};
use jv_stackmap::one_maps;

/// Worked rows of type checking (JVMS 4.10.1.6, 4.10.1.9), computed.
pub fn worked_rows()
    ensures { WorkedRows }
{}

/// Worked rows of verdicts: a class that is accepted, and each rule that a method can break.
pub fn verdict_rows()
    ensures { VerdictRows }
{
    one_list();
    stands_in_list();
    starts_apart();
}

/// The instruction at an offset of a method's list is the one that stands there in its code (JVMS 4.10.1.3).
pub fn instruction_at_is()
    ensures { InstructionAtIs }
{
    stands_in_list();
}

/// One frame at most falls into an offset (JVMS 4.10.1.6).
pub fn one_falls()
    ensures { OneFalls }
{
    stands_in_list();
    starts_apart();
}

/// A typing below an instruction that is type safe too is one below the next (JVMS 4.10.1.6).
pub fn typing_grows()
    ensures { TypingGrows }
{
    stands_in_list();
    starts_apart();
}

/// A typing below an offset is one whatever the frames from there on are (JVMS 4.10.1.6).
pub fn typing_is_local()
    ensures { TypingIsLocal }
{}

/// A method with a typing breaks no rule (JVMS 4.10.1.6).
pub fn typing_or_fault()
    ensures { TypingOrFault }
{
    one_list();
    one_maps();
}

/// A class has one verdict at most: the first method that is not type safe, the first rule that it breaks, and where.
pub fn one_judgement()
    ensures { OneJudgement }
{
    one_list();
    one_maps();
}

/// A file of a guest has one verdict at most.
pub fn one_judgement_of_file()
    ensures { OneJudgementOfFile }
{
    one_list();
    one_maps();
}
