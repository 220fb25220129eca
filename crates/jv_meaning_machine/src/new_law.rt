//! Laws of new objects: those that an instruction makes stand behind all that there were, and the first of
//! them has their count as its number.

ghost use Rattle.jv_meaning_machine.specs.Laws.NewObjects.{ConstantPushes, NewArrayMakes, NewMakes, NewMultiArrayMakes, NewReferenceArrayMakes};

/// `new` throws or begins an initialization and leaves the memory as it is, or an object joins all that there
/// were, and a reference to it is pushed, whose number is their count.
pub fn new_makes()
    ensures { NewMakes }
{}

/// `newarray` throws and leaves the memory as it is, or an array joins, and so on.
pub fn new_array_makes()
    ensures { NewArrayMakes }
{}

/// So does `anewarray`.
pub fn new_reference_array_makes()
    ensures { NewReferenceArrayMakes }
{}

/// So does `multianewarray` with all its arrays, of which the outer one is pushed.
pub fn new_multi_array_makes()
    ensures { NewMultiArrayMakes }
{}

/// `ldc` pushes a number, the object that its text has, or a new one, which is the text's from then on.
pub fn constant_pushes()
    ensures { ConstantPushes }
{}
