//! A method whose code is checked.

ghost use Rattle.std.specs.Prelude.{◌≡◌, ◌≤◌, ◌+◌, ℕ, List, slice_get, None, Some, IfSome, IsTrue};
ghost use Rattle.std.specs.List.{All};
ghost use Rattle.std.specs.Option.{option_map};
ghost use Rattle.jv_format.specs.Handlers.{handlers_of};
ghost use Rattle.jv_stackmap.specs.Types.{words};
ghost use Rattle.jv_meaning_typing.specs.Environment.{Environment};
ghost use Rattle.jv_meaning_typing.specs.Typing.{catch_type, frame_at};
ghost use Rattle.jv_verify_types.specs.Typed.{typed, typed_all};
ghost use Rattle.jv_verify_pass.specs.Pass.{IsOfPass, HasRoom, names_in, IsFrameAt};
ghost use Rattle.jv_verify_pass.specs.Inside.Walk.{AreBare};

use crate::catching::catch_type;
use jv_format::ExceptionTable;
use jv_stackmap::{MapFrame, MapFrames, offsets_rise};
use jv_verify_rules::MethodContext;
use jv_verify_types::{EntryTypes, Item};
use std::marker::Model;

/// A method whose code is checked: what the rules ask of it, its initial local entries, with their words, its handlers, and
/// the frames of its stack map.
pub struct Pass<'p, 'm, 'e, 't, 'a> {
    pub(crate) context: &'p MethodContext<'m, 'e, 't, 'a>,
    pub(crate) types: &'p EntryTypes<'e, 't, 'a>,
    pub(crate) initial: &'p [Item],
    pub(crate) words: u16,
    pub(crate) max_locals: u16,
    pub(crate) handlers: ExceptionTable<'a>,
    pub(crate) frames: &'p MapFrames,
}

impl<'p, 'm, 'e, 't, 'a> Model for Pass<'p, 'm, 'e, 't, 'a> {
    ghost use Rattle.jv_format.specs.Handlers.{handlers_of};
    ghost use Rattle.jv_verify_pass.specs.Pass.{Pass};
    ghost use Rattle.jv_verify_pass.specs.Inside.Kept.{IsPass};

    ghost Value = { Pass };

    ghost view = { λ p. record {
      context = p.context.now;
      types = p.types.now;
      max_locals = p.max_locals;
      handlers = handlers_of p.handlers;
      frames = p.frames.now;
    } };

    ghost invariant = { λ p. IsPass
        (record {
          context = p.context.now;
          types = p.types.now;
          max_locals = p.max_locals;
          handlers = handlers_of p.handlers;
          frames = p.frames.now;
        }) p.initial.now p.words };
}

impl Drop for Pass<'_, '_, '_, '_, '_> {
    fn drop(self) {
        let Pass {
            context: _,
            types: _,
            initial: _,
            words: _,
            max_locals: _,
            handlers: _,
            frames: _,
        } = self;
    }
}

impl<'p, 'm, 'e, 't, 'a> Pass<'p, 'm, 'e, 't, 'a> {
    /// A method in a context, whose initial local entries, the first first, have these types and so many words.
    pub fn new(
        context: &'p MethodContext<'m, 'e, 't, 'a>,
        types: &'p EntryTypes<'e, 't, 'a>,
        initial: &'p [Item],
        count: u16,
        max_locals: u16,
        handlers: ExceptionTable<'a>,
        frames: &'p MapFrames,
    ) -> Pass<'p, 'm, 'e, 't, 'a>
        requires types { types.now.constants.types ≡ context.now.class.types }
        requires pool { types.now.constants.pool ≡ context.now.class.by.class.constant_pool }
        requires initial { types.now.initial ≡ initial.now }
        requires words { (names : List (List ℕ)) → count ≡ words (typed_all names initial.now) }
        requires room { count ≤ max_locals }
        requires frames { All (HasRoom types.now max_locals) frames.now }
        ensures context { result.context ≡ context.now }
        ensures types { result.types ≡ types.now }
        ensures locals { result.max_locals ≡ max_locals }
        ensures handlers { result.handlers ≡ handlers_of handlers.entry }
        ensures frames { result.frames ≡ frames.now }
    {
        Pass {
            context,
            types,
            initial,
            words: count,
            max_locals,
            handlers,
            frames,
        }
    }

    /// The frame of the stack map at an offset, with its place among all, where there is one.
    pub(crate) fn map_at(&self, offset: u32) -> Option<(usize, MapFrame<'p>)>
        ensures frame { IsFrameAt self.now offset (option_map (λ x. x.1) result) }
        ensures room { IfSome result (λ x. HasRoom self.now.types self.now.max_locals x.1) }
        ensures place { IfSome result (λ x. slice_get self.now.frames x.0 ≡ Some x.1) }
    {
        offsets_rise();
        let place = self.frames.place_of(offset)?;
        Some((place, self.frames.frame_at(place)))
    }

    /// The same, where it may be known that none is there.
    #[inline(always)]
    pub(crate) fn map_unless(&self, bare: bool, offset: u32) -> Option<(usize, MapFrame<'p>)>
        requires { IsTrue bare → IsFrameAt self.now offset None }
        ensures frame { IsFrameAt self.now offset (option_map (λ x. x.1) result) }
        ensures room { IfSome result (λ x. HasRoom self.now.types self.now.max_locals x.1) }
        ensures place { IfSome result (λ x. slice_get self.now.frames x.0 ≡ Some x.1) }
    {
        if bare {
            return None;
        }
        self.map_at(offset)
    }

    /// The offset of the first frame of the stack map; a greater one than any where there is none.
    pub(crate) fn first_map(&self) -> u32
        ensures { AreBare self.now 0 result }
    {
        offsets_rise();
        if self.frames.count() == 0 {
            return u32::MAX;
        }
        self.frames.frame_at(0).offset()
    }

    /// The same of the next frame behind one that stands at an offset.
    fn next_map(&self, offset: u32) -> u32
        ensures { AreBare self.now (offset + 1) result }
    {
        offsets_rise();
        let count = self.frames.count();
        let Some(place) = self.frames.place_of(offset) else {
            return 0;
        };
        let next = place + 1;
        if next == count {
            return u32::MAX;
        }
        self.frames.frame_at(next).offset()
    }

    /// Up to which offset the stack map has no frame behind an instruction, where it has none from there on up to another.
    #[inline(always)]
    pub(crate) fn bare_behind(&self, offset: u32, until: u32) -> u32
        requires { AreBare self.now offset until }
        ensures { AreBare self.now (offset + 1) result }
    {
        if offset < until {
            return until;
        }
        self.next_map(offset)
    }

    /// The type that a handler with this index catches; `None` where the index names none.
    pub(crate) fn catch_type(&self, index: u16) -> Option<Item>
        ensures { (env : Environment) → IsOfPass self.now env → option_map (typed (names_in self.now)) result ≡ catch_type env index }
    {
        catch_type(self.context.class().constants(), index)
    }
}
