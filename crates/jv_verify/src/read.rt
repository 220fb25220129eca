//! A method whose code was read.

ghost use Rattle.std.specs.Prelude.{◌≡◌, ◌↔◌, ◌<◌, ◌≤◌, ℕ, List, IsTrue, IfOk, IfSome};
ghost use Rattle.jv_class_structure.specs.Seen.{seen_code};
ghost use Rattle.jv_stackmap.specs.Types.{words};
ghost use Rattle.jv_meaning_typing.specs.Environment.{Environment};
ghost use Rattle.jv_meaning_typing.specs.Typing.{HandlersKeepRules};
ghost use Rattle.jv_verify_types.specs.Typed.{typed_all};
ghost use Rattle.jv_verify_rules.specs.Method.{IsOfMethod};
ghost use Rattle.jv_verify_pass.specs.Before.{TookAll};
ghost use Rattle.jv_verify.specs.Inside.Typed.{AreFramedInEach, IsSomeTyped, IsSomeTypedBelow, StandInEach};
ghost use Rattle.jv_verify.specs.Inside.Read.{IsOfRead, HasReadFrames, HaveRoom, types_of, IsMapRead, IsVerdictBehindFrames};

use jv_class_structure::MethodCode;
use jv_code::{Code, Starts};
use jv_stackmap::{Limits, MapFrames, one_maps};
use jv_text::FieldTypeOf;
use jv_verify_pass::{
    CodeFault, FrameRoom, FrameSink, FramesBefore, Pass, check_code, frames_before, handlers_hold,
    read_map, tell_frames,
};
use jv_verify_rules::MethodContext;
use jv_verify_types::{CurrentClass, EntryTypes, Item};
use std::alloc::{AllocError, Global};
use std::marker::Model;

/// A method whose code is a list of instructions: its class and its body, the types of its initial local entries, with their
/// words, whether its name is `<init>`, and the type of its result, if it has one.
pub(crate) struct ReadMethod<'m, 'e, 't, 'a> {
    class: &'m CurrentClass<'e, 't, 'a>,
    body: &'m MethodCode<'a>,
    code: &'m Code<'a>,
    initial: &'m [Item],
    count: u16,
    is_init: bool,
    result: Option<FieldTypeOf<u32>>,
}

impl<'m, 'e, 't, 'a> Model for ReadMethod<'m, 'e, 't, 'a> {
    ghost use Rattle.jv_class_structure.specs.Seen.{seen_code};
    ghost use Rattle.jv_verify.specs.Inside.Read.{ReadMethod, IsRead};

    ghost Value = { ReadMethod };

    ghost view = { λ m. record {
      class = m.class.now;
      body = seen_code m.body.now;
      initial = m.initial.now;
      is_init = m.is_init;
      result = m.result;
    } };

    ghost invariant = { λ m. IsRead
        (record {
          class = m.class.now;
          body = seen_code m.body.now;
          initial = m.initial.now;
          is_init = m.is_init;
          result = m.result;
        }) m.code.now.bytes.now m.count };
}

impl Drop for ReadMethod<'_, '_, '_, '_> {
    fn drop(self) {
        let ReadMethod {
            class: _,
            body: _,
            code: _,
            initial: _,
            count: _,
            is_init: _,
            result: _,
        } = self;
    }
}

impl<'m, 'e, 't, 'a> ReadMethod<'m, 'e, 't, 'a> {
    /// A method of a class with this body and its code, whose initial local entries, the first first, have these types and so
    /// many words; whether its name is `<init>`, and the type of its result, if it has one.
    pub(crate) fn new(
        class: &'m CurrentClass<'e, 't, 'a>,
        body: &'m MethodCode<'a>,
        code: &'m Code<'a>,
        initial: &'m [Item],
        count: u16,
        is_init: bool,
        result_type: Option<FieldTypeOf<u32>>,
    ) -> ReadMethod<'m, 'e, 't, 'a>
        requires code { code.now.bytes.now ≡ body.now.code.now }
        requires words { (names : List (List ℕ)) → count ≡ words (typed_all names initial.now) }
        requires room { count ≤ body.now.max_locals }
        ensures class { result.class ≡ class.now }
        ensures body { result.body ≡ seen_code body.now }
        ensures initial { result.initial ≡ initial.now }
        ensures is_init { result.is_init ≡ is_init }
        ensures of { result.result ≡ result_type }
    {
        ReadMethod {
            class,
            body,
            code,
            initial,
            count,
            is_init,
            result: result_type,
        }
    }

    /// Where its instructions start.
    pub(crate) fn starts(&self, alloc: Global) -> Result<Starts<'a>, AllocError>
        ensures { IfOk result (λ starts. starts ≡ self.now.body.code) }
    {
        Starts::new(alloc, *self.code)
    }

    /// Whether each handler covers instructions, begins at one, and catches a Throwable.
    pub(crate) fn handlers_keep_rules(&self, starts: &Starts<'_>) -> bool
        requires { starts.now ≡ self.now.body.code }
        ensures { (env : Environment) → IsOfRead self.now env → IsTrue result ↔ HandlersKeepRules env }
    {
        handlers_hold(self.class.constants(), starts, self.body.exception_table)
    }

    /// The frames of its stack map, where they are right.
    pub(crate) fn map_frames(
        &self,
        alloc: Global,
        starts: &Starts<'_>,
    ) -> Result<Option<MapFrames>, AllocError>
        requires { starts.now ≡ self.now.body.code }
        ensures map { IfOk result (IsMapRead self.now) }
        ensures room { IfOk result (λ found. IfSome found (HaveRoom self.now)) }
    {
        let limits = Limits {
            max_locals: self.body.max_locals,
            max_stack: self.body.max_stack,
        };
        read_map(
            alloc,
            self.class.constants(),
            self.initial,
            starts,
            self.code,
            limits,
            self.body.stack_map_table,
        )
    }

    /// What the rules of instructions ask of it, with these starts of its instructions.
    fn context<'s>(&self, starts: &'s Starts<'a>) -> MethodContext<'s, 'e, 't, 'a>
    where
        'm: 's,
        requires { starts.now ≡ self.now.body.code }
        ensures class { result.class ≡ self.now.class }
        ensures of { (env : Environment) → IsOfRead self.now env → IsOfMethod result env }
    {
        MethodContext::new(
            self.class,
            self.code,
            starts,
            self.is_init,
            self.result,
            self.body.max_stack,
        )
    }

    /// What says which types the entries of its frames stand for.
    fn entry_types(&self) -> EntryTypes<'m, 't, 'a>
        ensures { result ≡ types_of self.now }
    {
        EntryTypes::new(self.class.constants(), self.initial)
    }

    /// Checks its instructions, with these starts, where its handlers are right and these are the frames of its stack map.
    pub(crate) fn check_instructions(
        &self,
        alloc: Global,
        room: &mut FrameRoom,
        starts: &Starts<'a>,
        frames: &MapFrames,
    ) -> Result<Option<CodeFault>, AllocError>
        requires starts { starts.now ≡ self.now.body.code }
        requires room { HaveRoom self.now frames.now }
        requires some { (env : Environment) × HasReadFrames self.now frames.now env }
        ensures { IsVerdictBehindFrames self.now frames.now result }
    {
        let context = self.context(starts);
        let types = self.entry_types();
        let pass = Pass::new(
            &context,
            &types,
            self.initial,
            self.count,
            self.body.max_locals,
            self.body.exception_table,
            frames,
        );
        check_code(alloc, room, &pass)
    }

    /// What stands before the instruction at an offset, where the frames are those of the stack map.
    pub(crate) fn frames_before(
        &self,
        alloc: Global,
        starts: &Starts<'a>,
        frames: &MapFrames,
        offset: u32,
    ) -> Result<FramesBefore<'a>, AllocError>
        requires starts { starts.now ≡ self.now.body.code }
        requires room { HaveRoom self.now frames.now }
        requires some { IsSomeTyped (HasReadFrames self.now frames.now) offset }
        ensures { StandInEach (HasReadFrames self.now frames.now) self.now.class.types.world offset result }
    {
        one_maps();
        let context = self.context(starts);
        let types = self.entry_types();
        let pass = Pass::new(
            &context,
            &types,
            self.initial,
            self.count,
            self.body.max_locals,
            self.body.exception_table,
            frames,
        );
        frames_before(alloc, &pass, offset)
    }

    /// Tells a sink of its instructions from the first on up to an end, each with the frames before it, where the frames are those of the
    /// stack map.
    pub(crate) fn tell_frames<S: FrameSink<'a>>(
        &self,
        alloc: Global,
        starts: &Starts<'a>,
        frames: &MapFrames,
        end: u32,
        sink: &mut S,
    ) -> Result<u32, AllocError>
        requires starts { starts.now ≡ self.now.body.code }
        requires room { HaveRoom self.now frames.now }
        requires some { IsSomeTypedBelow (HasReadFrames self.now frames.now) end }
        ensures took { IfOk result (λ stop. TookAll S.takes sink.old sink.new
            (AreFramedInEach (HasReadFrames self.now frames.now) self.now.class.types.world end stop)) }
        ensures within { IfOk result (λ stop. stop ≤ end) }
        ensures full { IfOk result (λ stop. stop < end → IsTrue (S.full sink.new)) }
    {
        one_maps();
        let context = self.context(starts);
        let types = self.entry_types();
        let pass = Pass::new(
            &context,
            &types,
            self.initial,
            self.count,
            self.body.max_locals,
            self.body.exception_table,
            frames,
        );
        tell_frames(alloc, &pass, end, sink)
    }
}
