//! What is wanted of each local variable.

ghost use Rattle.std.specs.Prelude.{◌≡◌, ◌↔◌, ◌<◌, ℕ, IfOk, OnOk, OnErr, IsTrue, length, map};
ghost use Rattle.jv_verify_types.specs.Numbered.{Item};
ghost use Rattle.jv_verify_types.specs.Typed.{TypeWorld};
ghost use Rattle.jv_verify_wants.specs.Wanted.{wanted_at, AddsWant, FlowsToWanted, IsWanted, WantsSame};
ghost use Rattle.jv_verify_wants.specs.Inside.Allowed.{kept_of, AreAllowed};

use crate::variable::Variable;
use jv_stackmap::VerificationTypeOf;
use jv_verify_types::{Item, TypeNames};
use std::alloc::{AllocError, Global};
use std::marker::Model;

/// What is wanted of each local variable: types, and until which offset each is. A question asks those wants that came since the type was
/// allowed there last, or since those that had ended were let go; where there are few it may ask all.
pub struct Wants {
    alloc: Global,
    variables: Vec<Variable>,
}

impl Model for Wants {
    ghost use Rattle.std.specs.Prelude.{map};
    ghost use Rattle.jv_verify_wants.specs.Wanted.{Wants};
    ghost use Rattle.jv_verify_wants.specs.Inside.Allowed.{kept_of};

    ghost Value = { Wants };

    ghost view = { λ w. map kept_of w.variables.items };
}

impl Drop for Wants {
    fn drop(self) {
        let Wants {
            alloc: _,
            variables: _,
        } = self;
    }
}

/// Sees to it that something can be wanted of a local variable.
fn make_room(alloc: Global, variables: &mut Vec<Variable>, place: usize) -> Result<(), AllocError>
    ensures there { OnOk result (place < length variables.new.items) }
    ensures same { (p : ℕ) → wanted_at (map kept_of variables.new.items) p ≡ wanted_at (map kept_of variables.old.items) p }
    ensures allowed { (types : TypeWorld) (offset : ℕ) → AreAllowed types offset (map kept_of variables.old.items)
        → AreAllowed types offset (map kept_of variables.new.items) }
{
    while variables.len() <= place {
        variables.push(Variable::new(alloc))?;
    }
    Ok(())
}

impl Wants {
    /// Nothing is wanted.
    pub fn new(alloc: Global) -> Wants
        ensures wanted { (place : ℕ) (item : Item) (offset : ℕ) → ¬ IsWanted result place item offset }
        ensures allowed { (types : TypeWorld) (offset : ℕ) → AreAllowed types offset result }
    {
        Wants {
            alloc,
            variables: Vec::new(alloc),
        }
    }

    /// A type is wanted of a local variable until an offset, where another is the current one. Nothing is wanted by top.
    ///
    /// # Errors
    ///
    /// Where the host had no memory for it.
    pub fn add(&mut self, place: u16, item: Item, until: u32, offset: u32) -> Result<(), AllocError>
        ensures ok { OnOk result (AddsWant self.old self.new place item until offset) }
        ensures refused { OnErr result (WantsSame self.old self.new offset) }
        ensures allowed { (types : TypeWorld) → AreAllowed types offset self.old → AreAllowed types offset self.new }
    {
        match item {
            VerificationTypeOf::Top => Ok(()),
            _ => {
                let at = usize::from(place);
                make_room(self.alloc, &mut self.variables, at)?;
                self.variables[at].add(self.alloc, item, until, offset)
            }
        }
    }

    /// Whether a type flows to all that is wanted of a local variable at an offset. What was allowed is remembered for these names.
    ///
    /// # Errors
    ///
    /// Where the host had no memory for it.
    pub fn allow(
        &mut self,
        names: &TypeNames<'_, '_>,
        place: u16,
        item: Item,
        offset: u32,
    ) -> Result<bool, AllocError>
        requires { AreAllowed names.now offset self.old }
        ensures ok { IfOk result (λ allowed. IsTrue allowed ↔ FlowsToWanted names.now item self.old place offset) }
        ensures same { (p : ℕ) → wanted_at self.new p ≡ wanted_at self.old p }
        ensures allowed { AreAllowed names.now offset self.new }
    {
        let at = usize::from(place);
        if at >= self.variables.len() {
            return Ok(true);
        }
        self.variables[at].allow(names, item, offset)
    }
}
