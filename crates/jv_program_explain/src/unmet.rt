//! What goes on to a frame of the stack map into which it doesn't flow, as text.

ghost use Rattle.std.specs.Prelude.{◌≡◌, Some, map, slice_get};
ghost use Rattle.std.specs.Option.{option_map};
ghost use Rattle.jv_program_explain.specs.Frames.{differ_text, difference_text, goes_on_text, some_type, there_text, unmet_text, wanted_text};
ghost use Rattle.jv_shown.specs.Frames.{frame_text};
ghost use Rattle.jv_stackmap.specs.Seen.{seen_type};
ghost use Rattle.jv_verify.specs.Before.{seen_frame, seen_unmet};

use jv_shown::{ShownFrame, ShownType};
use jv_verify::{Difference, NamedFrame, NamedType, NamedUnmet};
use std::fmt;

/// A type, where there is one, as it is printed.
#[derive(Clone, Copy)]
struct ShownSomeType<'a>(Option<NamedType<'a>>);

/// Where control goes on, as it is printed.
#[derive(Clone, Copy)]
struct ShownGoal(Option<u32>);

/// The first place at which two frames differ, as it is printed.
#[derive(Clone, Copy)]
struct ShownDifference<'f, 'a> {
    frame: &'f NamedFrame<'a>,
    map: &'f NamedFrame<'a>,
    difference: Difference,
}

/// The same, where they differ.
#[derive(Clone, Copy)]
struct ShownDiffer<'f, 'a> {
    frame: &'f NamedFrame<'a>,
    map: &'f NamedFrame<'a>,
    differ: Option<Difference>,
}

/// What the stack map has there, as it is printed.
#[derive(Clone, Copy)]
struct ShownThere<'f, 'a> {
    frame: &'f NamedFrame<'a>,
    map: Option<&'f NamedFrame<'a>>,
    differ: Option<Difference>,
}

/// What goes on, as it is printed, behind whose frame it is.
#[derive(Clone, Copy)]
pub(crate) struct ShownUnmet<'f, 'a> {
    pub(crate) whose: &'f str,
    pub(crate) unmet: Option<&'f NamedUnmet<'a>>,
}

/// A frame, behind whose it is, as it is printed.
#[derive(Clone, Copy)]
pub(crate) struct ShownNamed<'f, 'a> {
    pub(crate) whose: &'f str,
    pub(crate) frame: &'f NamedFrame<'a>,
}

/// The type that is there, and the one that is wanted, as they are printed.
#[derive(Clone, Copy)]
struct ShownWanted<'a> {
    from: Option<NamedType<'a>>,
    to: Option<NamedType<'a>>,
}

/// The type at a place.
fn type_at<'a>(types: &[NamedType<'a>], place: usize) -> Option<NamedType<'a>>
    ensures { result ≡ slice_get types.now place }
{
    types.get(place).copied()
}

/// The type of a local variable.
fn local_at<'a>(frame: &NamedFrame<'a>, place: usize) -> Option<NamedType<'a>>
    ensures { option_map seen_type result ≡ slice_get (map seen_type frame.now.locals.items) place }
{
    type_at(frame.locals.as_slice(), place)
}

/// The type of the item below so many others.
fn item_at<'a>(frame: &NamedFrame<'a>, depth: usize) -> Option<NamedType<'a>>
    ensures { option_map seen_type result ≡ slice_get (map seen_type frame.now.stack.items) depth }
{
    type_at(frame.stack.as_slice(), depth)
}

impl fmt::Display for ShownNamed<'_, '_> {
    ghost output = { λ shown. Some (frame_text shown.whose.now (seen_frame shown.frame.now)) };

    fn fmt<W: fmt::Write>(&self, f: &mut fmt::Formatter<W>) -> fmt::Result {
        let shown = ShownFrame {
            whose: self.whose,
            locals: self.frame.locals.as_slice(),
            stack: self.frame.stack.as_slice(),
            flag: self.frame.flag_this_uninit,
        };
        write!(f, "{shown}")
    }
}

impl fmt::Display for ShownWanted<'_> {
    ghost output = { λ shown. Some (wanted_text (option_map seen_type shown.from) (option_map seen_type shown.to)) };

    fn fmt<W: fmt::Write>(&self, f: &mut fmt::Formatter<W>) -> fmt::Result {
        let from = ShownSomeType(self.from);
        let to = ShownSomeType(self.to);
        write!(f, ": {from}; wanted {to}\n")
    }
}

impl fmt::Display for ShownSomeType<'_> {
    ghost output = { λ shown. Some (some_type (option_map seen_type shown.0)) };

    fn fmt<W: fmt::Write>(&self, f: &mut fmt::Formatter<W>) -> fmt::Result {
        match self.0 {
            Some(item) => {
                let shown = ShownType(item);
                write!(f, "{shown}")
            }
            None => f.write_str("none"),
        }
    }
}

impl fmt::Display for ShownGoal {
    ghost output = { λ goal. Some (goes_on_text goal.0) };

    fn fmt<W: fmt::Write>(&self, f: &mut fmt::Formatter<W>) -> fmt::Result {
        match self.0 {
            Some(to) => write!(f, "  goes on at offset {to}\n"),
            None => f.write_str("  goes on outside\n"),
        }
    }
}

impl fmt::Display for ShownDifference<'_, '_> {
    ghost output = { λ shown. Some (difference_text (seen_frame shown.frame.now) (seen_frame shown.map.now) shown.difference) };

    fn fmt<W: fmt::Write>(&self, f: &mut fmt::Formatter<W>) -> fmt::Result {
        match self.difference {
            Difference::Local(index) => {
                let place = usize::from(index);
                let from = local_at(self.frame, place);
                let to = local_at(self.map, place);
                let wanted = ShownWanted { from, to };
                write!(f, "  local variable {index}{wanted}")
            }
            Difference::Item(depth) => {
                let from = item_at(self.frame, depth);
                let to = item_at(self.map, depth);
                let wanted = ShownWanted { from, to };
                write!(f, "  stack item {depth} from the top{wanted}")
            }
            Difference::Flag => f.write_str("  flag uninitializedThis; wanted none\n"),
        }
    }
}

impl fmt::Display for ShownDiffer<'_, '_> {
    ghost output = { λ shown. Some (differ_text (seen_frame shown.frame.now) (seen_frame shown.map.now) shown.differ) };

    fn fmt<W: fmt::Write>(&self, f: &mut fmt::Formatter<W>) -> fmt::Result {
        match self.differ {
            Some(difference) => {
                let shown = ShownDifference {
                    frame: self.frame,
                    map: self.map,
                    difference,
                };
                write!(f, "{shown}")
            }
            None => Ok(()),
        }
    }
}

impl fmt::Display for ShownThere<'_, '_> {
    ghost output = { λ shown. Some (there_text (seen_frame shown.frame.now) (option_map (λ m. seen_frame m.now) shown.map) shown.differ) };

    fn fmt<W: fmt::Write>(&self, f: &mut fmt::Formatter<W>) -> fmt::Result {
        match self.map {
            Some(map) => {
                let there = ShownNamed {
                    whose: "map ",
                    frame: map,
                };
                let differ = ShownDiffer {
                    frame: self.frame,
                    map,
                    differ: self.differ,
                };
                write!(f, "{there}{differ}")
            }
            None => f.write_str("  map has no frame there\n"),
        }
    }
}

impl fmt::Display for ShownUnmet<'_, '_> {
    ghost output = { λ shown. Some (unmet_text shown.whose.now (option_map (λ u. seen_unmet u.now) shown.unmet)) };

    fn fmt<W: fmt::Write>(&self, f: &mut fmt::Formatter<W>) -> fmt::Result {
        match self.unmet {
            Some(unmet) => {
                let frame = ShownNamed {
                    whose: self.whose,
                    frame: &unmet.frame,
                };
                let goal = ShownGoal(unmet.to);
                let there = ShownThere {
                    frame: &unmet.frame,
                    map: unmet.map.as_ref(),
                    differ: unmet.differ,
                };
                write!(f, "{frame}{goal}{there}")
            }
            None => Ok(()),
        }
    }
}
