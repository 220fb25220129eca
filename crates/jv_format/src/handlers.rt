//! Exception tables (JVMS 4.7.3).

ghost use Rattle.std.specs.Prelude.{◌≡◌, ◌↔◌, IsTrue, [], length, slice_get};
ghost use Rattle.jv_format.specs.Handlers.{handlers_in, handlers_of};

use crate::half_at;

/// An entry of an exception table: instructions from `start_pc` up to `end_pc` go on at
/// `handler_pc` where they throw what the Class constant at `catch_type` names, or anything where
/// that is 0.
#[derive(Clone, Copy)]
pub struct Handler {
    /// The first offset that is covered.
    pub start_pc: u16,
    /// The offset behind those that are covered.
    pub end_pc: u16,
    /// The offset where the handler starts.
    pub handler_pc: u16,
    /// 0, or the index of the class that it catches.
    pub catch_type: u16,
}

/// The handlers of a method, in the order of the file: a part of the file's bytes.
#[derive(Clone, Copy)]
pub struct ExceptionTable<'a> {
    /// The handlers, eight bytes each.
    pub bytes: &'a [u8],
}

/// The handler at the front.
fn handler_at(bytes: &[u8]) -> Option<Handler>
    ensures { result ≡ slice_get (handlers_in bytes.now) 0 }
{
    let (start_pc, rest) = half_at(bytes)?;
    let (end_pc, rest) = half_at(rest)?;
    let (handler_pc, rest) = half_at(rest)?;
    let (catch_type, _rest) = half_at(rest)?;
    Some(Handler {
        start_pc,
        end_pc,
        handler_pc,
        catch_type,
    })
}

impl<'a> ExceptionTable<'a> {
    /// How many handlers there are.
    #[inline]
    #[tactic(auto, using(crate::proofs::HandlersIn::handlers_count))]
    pub fn len(&self) -> usize
        ensures { result ≡ length (handlers_of self.now) }
    {
        self.bytes.len() / 8
    }

    /// Whether there are none.
    #[inline]
    pub fn is_empty(&self) -> bool
        ensures { IsTrue result ↔ (handlers_of self.now ≡ []) }
    {
        self.bytes.len() < 8
    }

    /// The handler at a place, the first at 0; `None` behind the last.
    #[inline]
    #[tactic(auto, using(crate::proofs::HandlersIn::handlers_count, crate::proofs::HandlersIn::handler_there))]
    pub fn handler(&self, place: usize) -> Option<Handler>
        ensures { result ≡ slice_get (handlers_of self.now) place }
    {
        if self.len() <= place {
            return None;
        }
        let (_, rest) = self.bytes.split_at(8 * place);
        handler_at(rest)
    }
}
