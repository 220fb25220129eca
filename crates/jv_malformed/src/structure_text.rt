//! A fault behind a constant pool as it is printed.

ghost use Rattle.std.specs.Prelude.{Some};
ghost use Rattle.jv_malformed.specs.Text.{structure_text};

use crate::structure::FaultyStructure;
use std::fmt;

impl fmt::Display for FaultyStructure {
    ghost output = { λ fault. Some (structure_text fault) };

    fn fmt<W: fmt::Write>(&self, f: &mut fmt::Formatter<W>) -> fmt::Result {
        match *self {
            FaultyStructure::Head => f.write_str(
                "  behind the constant pool: the flags, the class, its superclass or its interfaces are cut off (JVMS 4.1)\n",
            ),
            FaultyStructure::FieldCount => f.write_str(
                "  behind the interfaces: the count of the fields is cut off (JVMS 4.1)\n",
            ),
            FaultyStructure::Field(place) => write!(
                f,
                "  field {place}: it is cut off, or an attribute of it may not stand so (JVMS 4.5, 4.7)\n"
            ),
            FaultyStructure::MethodCount => f.write_str(
                "  behind the fields: the count of the methods is cut off (JVMS 4.1)\n",
            ),
            FaultyStructure::Method(place) => write!(
                f,
                "  method {place}: it is cut off, or an attribute of it may not stand so (JVMS 4.6, 4.7)\n"
            ),
            FaultyStructure::End => f.write_str(
                "  behind the methods: an attribute of the class is cut off or has no name, or bytes are left over (JVMS 4.1, 4.7)\n",
            ),
        }
    }
}
