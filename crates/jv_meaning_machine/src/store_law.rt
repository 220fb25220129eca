//! Laws of the machine's stores: what an instruction that stores doesn't name stays as it is.

ghost use Rattle.jv_meaning_machine.specs.Laws.Stores.{ArrayStoreStores, OtherFieldsStay, OthersLeaveAll, OthersStoreNothing, PutfieldStores, PutstaticStores, ReferenceArrayStoreStores, StoredIsThere};

/// What was stored in a field is there.
pub fn stored_is_there()
    ensures { StoredIsThere }
{}

/// Where one field gets another value, the others hold what they held.
pub fn other_fields_stay()
    ensures { OtherFieldsStay }
{}

/// `putstatic` throws an error of linking or begins an initialization and leaves the memory as it is, or it
/// changes the static field that it names alone and goes on.
pub fn putstatic_stores()
    ensures { PutstaticStores }
{}

/// `putfield` throws an error of linking, or a `NullPointerException` at null, and leaves the memory as it is,
/// or it changes the field that it names of the object below the value alone and goes on.
pub fn putfield_stores()
    ensures { PutfieldStores }
{}

/// `iastore` and its kin throw at null or outside the array and leave the memory as it is, or they change the
/// component at the index alone, to the value narrowed to that array's type, and go on.
pub fn array_store_stores()
    ensures { ArrayStoreStores }
{}

/// So does `aastore`, which also throws where the reference can't stand in the array.
pub fn reference_array_store_stores()
    ensures { ReferenceArrayStoreStores }
{}

/// An instruction that is none of those that store leaves each object and each static field as it is; new
/// objects stand behind the others.
pub fn others_leave_all()
    ensures { OthersLeaveAll }
{}

/// So it changes no location that there is.
pub fn others_store_nothing()
    ensures { OthersStoreNothing }
{}
