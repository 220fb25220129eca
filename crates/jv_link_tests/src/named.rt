//! What answers are called.

use jv_link::LinkError;
use jv_loader::{Classes, Place};

/// The error's class in java/lang.
pub(crate) fn error_name(error: LinkError) -> &'static [u8] {
    match error {
        LinkError::NoClassDefFoundError => b"NoClassDefFoundError",
        LinkError::ClassCircularityError => b"ClassCircularityError",
        LinkError::IncompatibleClassChangeError => b"IncompatibleClassChangeError",
        LinkError::IllegalAccessError => b"IllegalAccessError",
        LinkError::VerifyError => b"VerifyError",
        LinkError::NoSuchFieldError => b"NoSuchFieldError",
        LinkError::NoSuchMethodError => b"NoSuchMethodError",
        LinkError::AbstractMethodError => b"AbstractMethodError",
        LinkError::InstantiationError => b"InstantiationError",
    }
}

/// The name of the class with a number.
pub(crate) fn class_name<'a>(classes: &Classes<'a>, number: usize) -> &'a [u8] {
    match classes.table().classes().get(number) {
        Some(class) => class.name(),
        None => b"no class",
    }
}

/// Whether there is a field of a name at a place.
pub(crate) fn is_field_at(classes: &Classes<'_>, place: Place, name: &[u8]) -> bool {
    match classes.table().classes().get(place.class) {
        Some(class) => {
            place.member < class.field_count() && class.field(place.member).name == name
        }
        None => false,
    }
}

/// Whether there is a method of a name and a descriptor at a place.
pub(crate) fn is_method_at(
    classes: &Classes<'_>,
    place: Place,
    name: &[u8],
    descriptor: &[u8],
) -> bool {
    match classes.table().classes().get(place.class) {
        Some(class) => class.method_named(name, descriptor) == Some(place.member),
        None => false,
    }
}
