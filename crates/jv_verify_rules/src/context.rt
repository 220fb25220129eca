//! The method that is checked.

ghost use Rattle.std.specs.Prelude.{◌≡◌};
ghost use Rattle.std.specs.Option.{option_map};
ghost use Rattle.jv_code.specs.Insns.{instruction_of};
ghost use Rattle.jv_meaning_typing.specs.Environment.{Environment, instruction_at};
ghost use Rattle.jv_verify_rules.specs.Method.{IsOfMethod};

use jv_code::{Code, Insn, Starts};
use jv_meaning_typing::instruction_at_is;
use jv_text::FieldTypeOf;
use jv_verify_types::{ConstantTypes, CurrentClass, TypeNames};
use std::marker::Model;

/// What the rules ask of the method whose code is type checked (JVMS 4.10.1.6): its class, its code with the offsets where
/// instructions start, and limits.
pub struct MethodContext<'m, 'e, 't, 'a> {
    class: &'m CurrentClass<'e, 't, 'a>,
    code: &'m Code<'a>,
    starts: &'m Starts<'a>,
    is_init: bool,
    result: Option<FieldTypeOf<u32>>,
    max_stack: u16,
}

impl<'m, 'e, 't, 'a> Model for MethodContext<'m, 'e, 't, 'a> {
    ghost use Rattle.std.specs.Prelude.{◌≡◌};
    ghost use Rattle.jv_verify_rules.specs.Method.{MethodContext};

    ghost Value = { MethodContext };

    ghost view = { λ m. record {
      class = m.class.now;
      code = m.code.now.bytes.now;
      is_init = m.is_init;
      result = m.result;
      max_stack = m.max_stack;
    } };

    ghost invariant = { λ m. m.starts.now ≡ m.code.now.bytes.now };
}

impl Drop for MethodContext<'_, '_, '_, '_> {
    fn drop(self) {
        let MethodContext {
            class: _,
            code: _,
            starts: _,
            is_init: _,
            result: _,
            max_stack: _,
        } = self;
    }
}

impl<'m, 'e, 't, 'a> MethodContext<'m, 'e, 't, 'a> {
    /// A method of a class with this code, whose instructions start at these offsets: whether its name is `<init>`, the
    /// type of its result, if it has one, and how many words its stack may have.
    pub fn new(
        class: &'m CurrentClass<'e, 't, 'a>,
        code: &'m Code<'a>,
        starts: &'m Starts<'a>,
        is_init: bool,
        result_type: Option<FieldTypeOf<u32>>,
        max_stack: u16,
    ) -> MethodContext<'m, 'e, 't, 'a>
        requires { starts.now ≡ code.now.bytes.now }
        ensures class { result.class ≡ class.now }
        ensures code { result.code ≡ code.now.bytes.now }
        ensures is_init { result.is_init ≡ is_init }
        ensures of { result.result ≡ result_type }
        ensures max_stack { result.max_stack ≡ max_stack }
    {
        MethodContext {
            class,
            code,
            starts,
            is_init,
            result: result_type,
            max_stack,
        }
    }

    /// The class.
    pub fn class(&self) -> &'m CurrentClass<'e, 't, 'a>
        ensures { result.now ≡ self.now.class }
    {
        self.class
    }

    /// The code.
    pub fn code(&self) -> &'m Code<'a>
        ensures { result.now.bytes.now ≡ self.now.code }
    {
        self.code
    }

    /// Whether its name is `<init>`.
    pub fn is_init(&self) -> bool
        ensures { result ≡ self.now.is_init }
    {
        self.is_init
    }

    /// The type of its result, if it has one.
    pub fn result(&self) -> Option<FieldTypeOf<u32>>
        ensures { result ≡ self.now.result }
    {
        self.result
    }

    /// How many words its stack may have.
    pub fn max_stack(&self) -> u16
        ensures { result ≡ self.now.max_stack }
    {
        self.max_stack
    }

    /// What the constants of the class say as types.
    pub(crate) fn constants(&self) -> &'e ConstantTypes<'t, 'a>
        ensures types { result.now.types ≡ self.now.class.types }
        ensures pool { result.now.pool ≡ self.now.class.by.class.constant_pool }
    {
        self.class.constants()
    }

    /// The names whose numbers stand in the types.
    pub(crate) fn types(&self) -> &'e TypeNames<'t, 'a>
        ensures { result.now ≡ self.now.class.types }
    {
        self.constants().names()
    }

    /// The instruction at an offset, where one starts there.
    pub(crate) fn insn_at(&self, offset: u16) -> Option<Insn<&'a [u8]>>
        ensures { (env : Environment) → IsOfMethod self.now env → option_map instruction_of result ≡ instruction_at env offset }
    {
        instruction_at_is();
        let pc = u32::from(offset);
        if self.starts.is_start(pc) {
            let (insn, _next) = self.code.insn_at(pc);
            Some(insn)
        } else {
            None
        }
    }
}
