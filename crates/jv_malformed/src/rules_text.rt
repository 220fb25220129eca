//! A broken rule on names, types or flags as it is printed.

ghost use Rattle.std.specs.Prelude.{Some};
ghost use Rattle.jv_malformed.specs.Text.{rules_text};

use crate::rules::FaultyRules;
use std::fmt;

impl fmt::Display for FaultyRules {
    ghost output = { λ fault. Some (rules_text fault) };

    fn fmt<W: fmt::Write>(&self, f: &mut fmt::Formatter<W>) -> fmt::Result {
        match *self {
            FaultyRules::Class => f.write_str(
                "  the class: its flags, its name, its superclass or its interfaces break a rule (JVMS 4.1)\n",
            ),
            FaultyRules::Field(place) => write!(
                f,
                "  field {place}: its name, its descriptor, its flags or its constant breaks a rule (JVMS 4.5, 4.7.2)\n"
            ),
            FaultyRules::Method(place) => write!(
                f,
                "  method {place}: its name, its descriptor, its flags or its code breaks a rule (JVMS 4.6, 4.7.3)\n"
            ),
            FaultyRules::Alike => f.write_str(
                "  two fields or two methods have the same name and descriptor (JVMS 4.5, 4.6)\n",
            ),
        }
    }
}
