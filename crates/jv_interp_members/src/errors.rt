//! Errors of linking, by the numbers of their classes.

ghost use Rattle.jv_meaning_world.specs.World.{World};
ghost use Rattle.jv_meaning_typing.specs.LinkErrors.{error_class};
ghost use Rattle.jv_link.specs.Seen.{error_of};
ghost use Rattle.jv_interp_heap.specs.ObjectsInBlocks.{HasNumber};
ghost use Rattle.jv_interp_heap.specs.SystemNumbers.{IsGuestsWorld};

use jv_interp_heap::{
    ABSTRACT_METHOD, CIRCULARITY, CLASS_CHANGE, ILLEGAL_ACCESS, INSTANTIATION, NO_CLASS, NO_FIELD,
    NO_METHOD, VERIFY, system_has_numbers,
};
use jv_link::LinkError;

/// The number of the class whose object is thrown where linking ends in an error (JVMS 5.4).
pub fn number_of_error(error: LinkError) -> u32
    ensures { (world : World) → IsGuestsWorld world → HasNumber world (error_class (error_of error)) result }
{
    system_has_numbers();
    match error {
        LinkError::NoClassDefFoundError => NO_CLASS,
        LinkError::ClassCircularityError => CIRCULARITY,
        LinkError::IncompatibleClassChangeError => CLASS_CHANGE,
        LinkError::IllegalAccessError => ILLEGAL_ACCESS,
        LinkError::VerifyError => VERIFY,
        LinkError::NoSuchFieldError => NO_FIELD,
        LinkError::NoSuchMethodError => NO_METHOD,
        LinkError::AbstractMethodError => ABSTRACT_METHOD,
        LinkError::InstantiationError => INSTANTIATION,
    }
}
