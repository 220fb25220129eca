//! Laws of the machine's runs: what stays, and what a guest keeps of its budget.

ghost use Rattle.jv_meaning_machine.specs.Laws.Runs.{AloneGoesOn, AloneStepsOn, CellsAreBudgeted, FirstObjectsCost, ObjectsAreNeverFewer, ObjectsHaveFields, ObjectsStay, OutputGrows, OutputIsBudgeted, RunKeeps, StaticsAreThere, StepKeeps, WordsAreBudgeted};

/// What a state has stays over a step: what was written, the objects and their shapes, the objects of
/// literals, and the sums of what is used and what is left.
pub fn step_keeps()
    ensures { StepKeeps }
{}

/// It stays over any number of steps.
pub fn run_keeps()
    ensures { RunKeeps }
{}

/// What was written stands at the front of all that is written later.
pub fn output_grows()
    ensures { OutputGrows }
{}

/// An object keeps its number, its class and its fields, an array its components' type and their count.
pub fn objects_stay()
    ensures { ObjectsStay }
{}

/// Objects are never fewer.
pub fn objects_are_never_fewer()
    ensures { ObjectsAreNeverFewer }
{}

/// What a guest does alone goes on from each state that it was in.
pub fn alone_goes_on()
    ensures { AloneGoesOn }
{}

/// While nothing comes to its input a guest takes steps, and does nothing else.
pub fn alone_steps_on()
    ensures { AloneStepsOn }
{}

/// An object has the fields of its class's layout, which is one of its guest's world, always.
pub fn objects_have_fields()
    ensures { ObjectsHaveFields }
{}

/// What a guest wrote alone and what it may still write are its budget's output together.
pub fn output_is_budgeted()
    ensures { OutputIsBudgeted }
{}

/// The words that its frames have and those that are left are its budget's words together.
pub fn words_are_budgeted()
    ensures { WordsAreBudgeted }
{}

/// The cells that its objects have and those that are left are its budget's cells together, where there
/// were enough for the objects of the start.
pub fn cells_are_budgeted()
    ensures { CellsAreBudgeted }
{}

/// The objects of the start cost the same whatever a guest's files are.
pub fn first_objects_cost()
    ensures { FirstObjectsCost }
{}

/// Each static field of each class of a guest's world is there, always.
pub fn statics_are_there()
    ensures { StaticsAreThere }
{}
