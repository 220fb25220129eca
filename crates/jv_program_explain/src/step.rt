//! An instruction and the frame before it, as they are printed.

ghost use Rattle.std.specs.Prelude.{◌≡◌, ◌++◌, IfOk, Some, string_bytes};
ghost use Rattle.std.specs.Option.{option_map};
ghost use Rattle.jv_code.specs.Insns.{instruction_of};
ghost use Rattle.jv_explain.specs.Text.{place_text};
ghost use Rattle.jv_verify.specs.Before.{seen_frame};
ghost use Rattle.jv_program_explain.specs.Listing.{before_text};

use crate::unmet::ShownNamed;
use jv_explain::ShownPlace;
use jv_verify::{FramedInsn, NamedFrame};
use std::alloc::{AllocError, Global};
use std::fmt;

/// The frame before an instruction, where there is one, as it is printed.
#[derive(Clone, Copy)]
struct ShownBefore<'f, 'a> {
    falling: Option<&'f NamedFrame<'a>>,
    map: Option<&'f NamedFrame<'a>>,
}

/// An instruction, and the frame before it, as they are printed.
#[derive(Clone, Copy)]
struct ShownStep<'f, 'p, 'a, 'b> {
    place: ShownPlace<'p, 'a>,
    before: ShownBefore<'f, 'b>,
}

impl fmt::Display for ShownBefore<'_, '_> {
    ghost output = { λ shown. Some (before_text (option_map (λ f. seen_frame f.now) shown.falling)
        (option_map (λ f. seen_frame f.now) shown.map)) };

    fn fmt<W: fmt::Write>(&self, f: &mut fmt::Formatter<W>) -> fmt::Result {
        match self.map {
            Some(map) => {
                let shown = ShownNamed {
                    whose: "map ",
                    frame: map,
                };
                write!(f, "{shown}")
            }
            None => match self.falling {
                Some(frame) => {
                    let shown = ShownNamed { whose: "", frame };
                    write!(f, "{shown}")
                }
                None => Ok(()),
            },
        }
    }
}

impl fmt::Display for ShownStep<'_, '_, '_, '_> {
    ghost output = { λ shown. Some (place_text shown.place.pool.now shown.place.offset shown.place.line (instruction_of shown.place.insn)
        ++ before_text (option_map (λ f. seen_frame f.now) shown.before.falling) (option_map (λ f. seen_frame f.now) shown.before.map)) };

    fn fmt<W: fmt::Write>(&self, f: &mut fmt::Formatter<W>) -> fmt::Result {
        let place = self.place;
        let before = self.before;
        write!(f, "{place}{before}")
    }
}

/// The text of an instruction and of the frame before it, which is among these.
pub(crate) fn told<'a>(
    alloc: Global,
    place: ShownPlace<'_, 'a>,
    framed: &FramedInsn<'_>,
) -> Result<String, AllocError>
    ensures { IfOk result (λ text. string_bytes text
        ≡ place_text place.entry.pool.now place.entry.offset place.entry.line (instruction_of place.entry.insn)
        ++ before_text (option_map seen_frame framed.now.falling) (option_map seen_frame framed.now.map)) }
{
    let before = ShownBefore {
        falling: framed.falling.as_ref(),
        map: framed.map.as_ref(),
    };
    let shown = ShownStep { place, before };
    shown.to_string(alloc)
}
