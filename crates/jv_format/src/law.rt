//! Laws of numbers and of exception tables.

ghost use Rattle.jv_format.specs.Numbers.{AreBigEndian};
ghost use Rattle.jv_format.specs.Handlers.{HandlersStand};

/// The bytes of a u2 and of a u4 (JVMS 4) are big-endian.
pub fn are_big_endian()
    ensures { AreBigEndian }
{}

/// Handlers stand in their own bytes (JVMS 4.7.3).
pub fn handlers_stand()
    ensures { HandlersStand }
{}
