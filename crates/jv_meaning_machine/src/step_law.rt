//! Laws of a step that executes an instruction: what becomes of what it did to the memory, and of its effect.

ghost use Rattle.jv_meaning_machine.specs.Laws.Steps.{ExecutionKeeps, OutcomeStays, StepActs, StepGoesOn};

/// The step is what the machine does with what the instruction left and with its effect.
pub fn step_acts()
    ensures { StepActs }
{}

/// Where the instruction goes on, the next state has the memory that it left, and the frame has the local
/// variables and the stack that its effect names.
pub fn step_goes_on()
    ensures { StepGoesOn }
{}

/// Whatever its effect is, output, shapes and budgets of the memory stay.
pub fn outcome_stays()
    ensures { OutcomeStays }
{}

/// And so they do over what an instruction does to the memory.
pub fn execution_keeps()
    ensures { ExecutionKeeps }
{}
