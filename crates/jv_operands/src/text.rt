//! Wants that are not met, as text.

ghost use Rattle.std.specs.Prelude.{Some};
ghost use Rattle.std.specs.Option.{option_map};
ghost use Rattle.jv_stackmap.specs.Seen.{seen_type};
ghost use Rattle.jv_operands.specs.Seen.{seen_unmet, seen_want};
ghost use Rattle.jv_operands.specs.Text.{found_text, place_text, unmet_line, want_text};

use crate::unmet::{Place, UnmetWant};
use crate::want::Want;
use jv_shown::ShownType;
use jv_stackmap::VerificationTypeOf;
use std::fmt;

/// A want, as it is printed.
#[derive(Clone, Copy)]
struct ShownWant<'a>(Want<&'a [u8]>);

/// What is there, as it is printed.
#[derive(Clone, Copy)]
struct ShownFound<'a>(Option<VerificationTypeOf<&'a [u8]>>);

/// A line with a want that is not met: the place, what is there, and what is wanted.
#[derive(Clone, Copy)]
pub struct ShownUnmet<'a>(pub UnmetWant<&'a [u8]>);

impl fmt::Display for ShownWant<'_> {
    ghost output = { λ shown. Some (want_text (seen_want shown.0)) };

    fn fmt<W: fmt::Write>(&self, f: &mut fmt::Formatter<W>) -> fmt::Result {
        match self.0 {
            Want::Type(of) => {
                let of = ShownType(of);
                write!(f, "{of}")
            }
            Want::Either(one, other) => {
                let one = ShownType(one);
                let other = ShownType(other);
                write!(f, "{one} or {other}")
            }
            Want::Reference => f.write_str("a reference"),
            Want::Array => f.write_str("an array"),
            Want::ReferenceArray => f.write_str("an array of references"),
            Want::Uninitialized => f.write_str("an uninitialized object"),
            Want::Word => f.write_str("a value of one word"),
            Want::Any => f.write_str("any type"),
        }
    }
}

impl fmt::Display for ShownFound<'_> {
    ghost output = { λ shown. Some (found_text (option_map seen_type shown.0)) };

    fn fmt<W: fmt::Write>(&self, f: &mut fmt::Formatter<W>) -> fmt::Result {
        match self.0 {
            Some(item) => {
                let shown = ShownType(item);
                write!(f, "{shown}")
            }
            None => f.write_str("none"),
        }
    }
}

impl fmt::Display for Place {
    ghost output = { λ place. Some (place_text place) };

    fn fmt<W: fmt::Write>(&self, f: &mut fmt::Formatter<W>) -> fmt::Result {
        match self {
            Place::Item(depth) => write!(f, "  stack item {depth} from the top"),
            Place::Local(index) => write!(f, "  local variable {index}"),
        }
    }
}

impl fmt::Display for ShownUnmet<'_> {
    ghost output = { λ shown. Some (unmet_line (seen_unmet shown.0)) };

    fn fmt<W: fmt::Write>(&self, f: &mut fmt::Formatter<W>) -> fmt::Result {
        let place = self.0.place;
        let found = ShownFound(self.0.found);
        let want = ShownWant(self.0.want);
        write!(f, "{place}: {found}; wanted {want}\n")
    }
}
