//! Instructions of a family, executed in line.

ghost use Rattle.std.specs.Prelude.{◌≡◌, ◌+◌, ◌≤◌, IfOk, IsOk, IsTrue, OnOk, OnErr};
ghost use Rattle.jv_code.specs.Insns.{instruction_of};
ghost use Rattle.jv_link_cache.specs.Linked.{IsLinked};
ghost use Rattle.jv_interp_members.specs.Known.{known};
ghost use Rattle.jv_interp_words.specs.Going.{StaysIn};
ghost use Rattle.jv_interp_members.specs.Methods.{AreMethods};
ghost use Rattle.jv_interp_objects.specs.Texts.{AreTexts};
ghost use Rattle.jv_interp_held.specs.Executing.{IsUnmoved, place};
ghost use Rattle.jv_interp_instructions.specs.InGuest.{CanExecuteAt, ExecutedAt, KeepsCodeRules};

use crate::array_loads::{execute_array_length, execute_array_load, execute_reference_array_load};
use crate::array_stores::execute_array_store;
use crate::calls::{execute_invokeinterface, execute_invokespecial, execute_invokevirtual};
use crate::executing::execute;
use crate::fields::{execute_getfield, execute_getstatic, execute_putfield, execute_putstatic};
use crate::long_constants::execute_pool_long_constant;
use crate::on_words::{execute_division, execute_return};
use crate::pool_constants::execute_pool_constant;
use jv_code::{FieldAccess, Insn, Invocation};
use jv_interp_held::{ClassState, Effect, Held};
use jv_interp_members::{Current, Methods, StaticCall, call_static};
use jv_interp_objects::{Texts, aastore, checkcast, create, instanceof};
use jv_interp_words::Registers;
use jv_link::Site;
use jv_link_cache::Linked;
use jv_loader::Classes;
use jv_meaning_machine::execution_keeps;
use jv_store::{OutOfMemory, Store};

/// A way in which instructions are executed: all do the same, and each has those of one family in line.
pub trait Execution {
    /// Executes an instruction, as [`execute`] does.
    ///
    /// # Errors
    ///
    /// Where the host had no memory for what it makes; all is then as it was, but for what linking has found.
    fn execute<'a, 'l, S: Store>(
        classes: &Classes<'a>,
        linked: &mut Linked<'a>,
        methods: &Methods<'a>,
        texts: &Texts<'a>,
        site: Site,
        states: &[ClassState],
        store: &mut S,
        held: &mut Held,
        words: &mut [u32],
        at: &mut Registers<'l>,
        next: u32,
        insn: Insn<&[u8]>,
    ) -> Result<Effect, OutOfMemory>
        requires methods { AreMethods classes.now.world methods.now }
        requires texts { AreTexts classes.now.world texts.now }
        requires can { CanExecuteAt states.now (instruction_of insn) next (known classes.now.world linked.old site) texts.now.names
            at.old words.old held.old (S.content store.old) }
        requires rules { KeepsCodeRules (instruction_of insn) }
        requires cells { held.old.cells ≤ S.room_left store.old }
        ensures done { IfOk result (ExecutedAt states.now (instruction_of insn.entry) next (known classes.now.world linked.old site)
            texts.now.names (place at.old words.old held.old (S.content store.old))
            (place at.new words.new held.new (S.content store.new))) }
        ensures stays { StaysIn at.old at.new words.new }
        ensures room { OnOk result (S.room_left store.old + held.new.cells ≡ S.room_left store.new + held.old.cells) }
        ensures linked { IsLinked classes.now.world linked.new }
        ensures refused_at { OnErr result (at.new ≡ at.old) }
        ensures refused_words { OnErr result (words.new ≡ words.old) }
        ensures refused_held { OnErr result (held.new ≡ held.old) }
        ensures refused { OnErr result (S.content store.new ≡ S.content store.old) }
        ensures refused_room { OnErr result (S.room_left store.new ≡ S.room_left store.old) }
        ensures sure { IsTrue S.SURE → IsOk result }
        ensures unmoved { IfOk result (λ effect. IsUnmoved effect (place at.old words.old held.old (S.content store.old))
            (place at.new words.new held.new (S.content store.new))) };
}

/// Executes an instruction out of line: what the registers are kept in is not handed on.
#[inline(always)]
fn execute_apart<'a, 'l, S: Store>(
    classes: &Classes<'a>,
    linked: &mut Linked<'a>,
    methods: &Methods<'a>,
    texts: &Texts<'a>,
    site: Site,
    states: &[ClassState],
    store: &mut S,
    held: &mut Held,
    words: &mut [u32],
    at: &mut Registers<'l>,
    next: u32,
    insn: Insn<&[u8]>,
) -> Result<Effect, OutOfMemory>
    requires methods { AreMethods classes.now.world methods.now }
    requires texts { AreTexts classes.now.world texts.now }
    requires can { CanExecuteAt states.now (instruction_of insn) next (known classes.now.world linked.old site) texts.now.names
        at.old words.old held.old (S.content store.old) }
    requires rules { KeepsCodeRules (instruction_of insn) }
    requires cells { held.old.cells ≤ S.room_left store.old }
    ensures done { IfOk result (ExecutedAt states.now (instruction_of insn.entry) next (known classes.now.world linked.old site)
        texts.now.names (place at.old words.old held.old (S.content store.old))
        (place at.new words.new held.new (S.content store.new))) }
    ensures stays { StaysIn at.old at.new words.new }
    ensures room { OnOk result (S.room_left store.old + held.new.cells ≡ S.room_left store.new + held.old.cells) }
    ensures linked { IsLinked classes.now.world linked.new }
    ensures refused_at { OnErr result (at.new ≡ at.old) }
    ensures refused_words { OnErr result (words.new ≡ words.old) }
    ensures refused_held { OnErr result (held.new ≡ held.old) }
    ensures refused { OnErr result (S.content store.new ≡ S.content store.old) }
    ensures refused_room { OnErr result (S.room_left store.new ≡ S.room_left store.old) }
    ensures sure { IsTrue S.SURE → IsOk result }
    ensures unmoved { IfOk result (λ effect. IsUnmoved effect (place at.old words.old held.old (S.content store.old))
        (place at.new words.new held.new (S.content store.new))) }
{
    let mut own = *at;
    let result = execute(
        classes, linked, methods, texts, site, states, store, held, words, &mut own, next, insn,
    );
    at.pc = own.pc;
    at.top = own.top;
    result
}

/// All instructions, none of them in line.
#[derive(Clone, Copy)]
pub struct AnyInstruction;

impl Execution for AnyInstruction {
    #[inline(always)]
    fn execute<'a, 'l, S: Store>(
        classes: &Classes<'a>,
        linked: &mut Linked<'a>,
        methods: &Methods<'a>,
        texts: &Texts<'a>,
        site: Site,
        states: &[ClassState],
        store: &mut S,
        held: &mut Held,
        words: &mut [u32],
        at: &mut Registers<'l>,
        next: u32,
        insn: Insn<&[u8]>,
    ) -> Result<Effect, OutOfMemory> {
        execute_apart(
            classes, linked, methods, texts, site, states, store, held, words, at, next, insn,
        )
    }
}

/// Loads from arrays, stores of numbers into them, and their lengths.
#[derive(Clone, Copy)]
pub struct Arrays;

impl Execution for Arrays {
    #[inline(always)]
    fn execute<'a, 'l, S: Store>(
        classes: &Classes<'a>,
        linked: &mut Linked<'a>,
        methods: &Methods<'a>,
        texts: &Texts<'a>,
        site: Site,
        states: &[ClassState],
        store: &mut S,
        held: &mut Held,
        words: &mut [u32],
        at: &mut Registers<'l>,
        next: u32,
        insn: Insn<&[u8]>,
    ) -> Result<Effect, OutOfMemory> {
        match insn {
            Insn::ArrayLoad(kind) => Ok(execute_array_load(store, held, words, at, next, kind)),
            Insn::ReferenceArrayLoad => {
                Ok(execute_reference_array_load(store, held, words, at, next))
            }
            Insn::ArrayStore(kind) => Ok(execute_array_store(store, held, words, at, next, kind)),
            Insn::ArrayLength => Ok(execute_array_length(store, held, words, at, next)),
            _ => execute_apart(
                classes, linked, methods, texts, site, states, store, held, words, at, next, insn,
            ),
        }
    }
}

/// Fields that are read.
#[derive(Clone, Copy)]
pub struct FieldGets;

impl Execution for FieldGets {
    #[inline(always)]
    fn execute<'a, 'l, S: Store>(
        classes: &Classes<'a>,
        linked: &mut Linked<'a>,
        methods: &Methods<'a>,
        texts: &Texts<'a>,
        site: Site,
        states: &[ClassState],
        store: &mut S,
        held: &mut Held,
        words: &mut [u32],
        at: &mut Registers<'l>,
        next: u32,
        insn: Insn<&[u8]>,
    ) -> Result<Effect, OutOfMemory> {
        let current = Current {
            classes,
            methods,
            states,
            site,
            next,
        };
        match insn {
            Insn::Field(access, index) => match access {
                FieldAccess::GetStatic => Ok(execute_getstatic(
                    current, linked, store, held, words, at, index,
                )),
                FieldAccess::GetField => Ok(execute_getfield(
                    current, linked, store, held, words, at, index,
                )),
                _ => execute_apart(
                    classes, linked, methods, texts, site, states, store, held, words, at, next,
                    insn,
                ),
            },
            _ => execute_apart(
                classes, linked, methods, texts, site, states, store, held, words, at, next, insn,
            ),
        }
    }
}

/// Fields that are written.
#[derive(Clone, Copy)]
pub struct FieldPuts;

impl Execution for FieldPuts {
    #[inline(always)]
    fn execute<'a, 'l, S: Store>(
        classes: &Classes<'a>,
        linked: &mut Linked<'a>,
        methods: &Methods<'a>,
        texts: &Texts<'a>,
        site: Site,
        states: &[ClassState],
        store: &mut S,
        held: &mut Held,
        words: &mut [u32],
        at: &mut Registers<'l>,
        next: u32,
        insn: Insn<&[u8]>,
    ) -> Result<Effect, OutOfMemory> {
        let current = Current {
            classes,
            methods,
            states,
            site,
            next,
        };
        match insn {
            Insn::Field(access, index) => match access {
                FieldAccess::PutStatic => Ok(execute_putstatic(
                    current, linked, store, held, words, at, index,
                )),
                FieldAccess::PutField => Ok(execute_putfield(
                    current, linked, store, held, words, at, index,
                )),
                _ => execute_apart(
                    classes, linked, methods, texts, site, states, store, held, words, at, next,
                    insn,
                ),
            },
            _ => execute_apart(
                classes, linked, methods, texts, site, states, store, held, words, at, next, insn,
            ),
        }
    }
}

/// Constants of a class's pool that are loaded.
#[derive(Clone, Copy)]
pub struct ConstantLoads;

impl Execution for ConstantLoads {
    #[inline(always)]
    fn execute<'a, 'l, S: Store>(
        classes: &Classes<'a>,
        linked: &mut Linked<'a>,
        methods: &Methods<'a>,
        texts: &Texts<'a>,
        site: Site,
        states: &[ClassState],
        store: &mut S,
        held: &mut Held,
        words: &mut [u32],
        at: &mut Registers<'l>,
        next: u32,
        insn: Insn<&[u8]>,
    ) -> Result<Effect, OutOfMemory> {
        let current = Current {
            classes,
            methods,
            states,
            site,
            next,
        };
        match insn {
            Insn::PoolConstant(index, _form) => execute_pool_constant(
                current, texts, store, held, words, at, index,
            ),
            Insn::PoolLongConstant(index) => Ok(execute_pool_long_constant(
                current, store, held, words, at, index,
            )),
            _ => execute_apart(
                classes, linked, methods, texts, site, states, store, held, words, at, next, insn,
            ),
        }
    }
}

/// Returns.
#[derive(Clone, Copy)]
pub struct Returns;

impl Execution for Returns {
    #[inline(always)]
    fn execute<'a, 'l, S: Store>(
        classes: &Classes<'a>,
        linked: &mut Linked<'a>,
        methods: &Methods<'a>,
        texts: &Texts<'a>,
        site: Site,
        states: &[ClassState],
        store: &mut S,
        held: &mut Held,
        words: &mut [u32],
        at: &mut Registers<'l>,
        next: u32,
        insn: Insn<&[u8]>,
    ) -> Result<Effect, OutOfMemory> {
        execution_keeps();
        match insn {
            Insn::ReturnValue(kind) => Ok(execute_return(words, at, kind)),
            Insn::Return => Ok(Effect::Leaves { words: 0 }),
            _ => execute_apart(
                classes, linked, methods, texts, site, states, store, held, words, at, next, insn,
            ),
        }
    }
}

/// Calls of static methods.
#[derive(Clone, Copy)]
pub struct StaticCalls;

impl Execution for StaticCalls {
    #[inline(always)]
    fn execute<'a, 'l, S: Store>(
        classes: &Classes<'a>,
        linked: &mut Linked<'a>,
        methods: &Methods<'a>,
        texts: &Texts<'a>,
        site: Site,
        states: &[ClassState],
        store: &mut S,
        held: &mut Held,
        words: &mut [u32],
        at: &mut Registers<'l>,
        next: u32,
        insn: Insn<&[u8]>,
    ) -> Result<Effect, OutOfMemory> {
        execution_keeps();
        let current = Current {
            classes,
            methods,
            states,
            site,
            next,
        };
        match insn {
            Insn::Invoke(how, index) => match how {
                Invocation::Static => match call_static(current, linked, held, words, at, index) {
                    StaticCall::Has(effect) => Ok(effect),
                    StaticCall::ClassName | StaticCall::ArrayLike => execute_apart(
                        classes, linked, methods, texts, site, states, store, held, words, at,
                        next, insn,
                    ),
                },
                _ => execute_apart(
                    classes, linked, methods, texts, site, states, store, held, words, at, next,
                    insn,
                ),
            },
            _ => execute_apart(
                classes, linked, methods, texts, site, states, store, held, words, at, next, insn,
            ),
        }
    }
}

/// Calls of methods that objects' classes have.
#[derive(Clone, Copy)]
pub struct VirtualCalls;

impl Execution for VirtualCalls {
    #[inline(always)]
    fn execute<'a, 'l, S: Store>(
        classes: &Classes<'a>,
        linked: &mut Linked<'a>,
        methods: &Methods<'a>,
        texts: &Texts<'a>,
        site: Site,
        states: &[ClassState],
        store: &mut S,
        held: &mut Held,
        words: &mut [u32],
        at: &mut Registers<'l>,
        next: u32,
        insn: Insn<&[u8]>,
    ) -> Result<Effect, OutOfMemory> {
        let current = Current {
            classes,
            methods,
            states,
            site,
            next,
        };
        match insn {
            Insn::Invoke(how, index) => match how {
                Invocation::Virtual => Ok(execute_invokevirtual(
                    current, linked, store, held, words, at, index,
                )),
                _ => execute_apart(
                    classes, linked, methods, texts, site, states, store, held, words, at, next,
                    insn,
                ),
            },
            _ => execute_apart(
                classes, linked, methods, texts, site, states, store, held, words, at, next, insn,
            ),
        }
    }
}

/// Calls of methods of interfaces.
#[derive(Clone, Copy)]
pub struct InterfaceCalls;

impl Execution for InterfaceCalls {
    #[inline(always)]
    fn execute<'a, 'l, S: Store>(
        classes: &Classes<'a>,
        linked: &mut Linked<'a>,
        methods: &Methods<'a>,
        texts: &Texts<'a>,
        site: Site,
        states: &[ClassState],
        store: &mut S,
        held: &mut Held,
        words: &mut [u32],
        at: &mut Registers<'l>,
        next: u32,
        insn: Insn<&[u8]>,
    ) -> Result<Effect, OutOfMemory> {
        let current = Current {
            classes,
            methods,
            states,
            site,
            next,
        };
        match insn {
            Insn::InvokeInterface(index, _count) => Ok(execute_invokeinterface(
                current, linked, store, held, words, at, index,
            )),
            _ => execute_apart(
                classes, linked, methods, texts, site, states, store, held, words, at, next, insn,
            ),
        }
    }
}

/// Calls of `<init>` and of methods above.
#[derive(Clone, Copy)]
pub struct SpecialCalls;

impl Execution for SpecialCalls {
    #[inline(always)]
    fn execute<'a, 'l, S: Store>(
        classes: &Classes<'a>,
        linked: &mut Linked<'a>,
        methods: &Methods<'a>,
        texts: &Texts<'a>,
        site: Site,
        states: &[ClassState],
        store: &mut S,
        held: &mut Held,
        words: &mut [u32],
        at: &mut Registers<'l>,
        next: u32,
        insn: Insn<&[u8]>,
    ) -> Result<Effect, OutOfMemory> {
        let current = Current {
            classes,
            methods,
            states,
            site,
            next,
        };
        match insn {
            Insn::Invoke(how, index) => match how {
                Invocation::Special => Ok(execute_invokespecial(
                    current, linked, store, held, words, at, index,
                )),
                _ => execute_apart(
                    classes, linked, methods, texts, site, states, store, held, words, at, next,
                    insn,
                ),
            },
            _ => execute_apart(
                classes, linked, methods, texts, site, states, store, held, words, at, next, insn,
            ),
        }
    }
}

/// Divisions.
#[derive(Clone, Copy)]
pub struct Divisions;

impl Execution for Divisions {
    #[inline(always)]
    fn execute<'a, 'l, S: Store>(
        classes: &Classes<'a>,
        linked: &mut Linked<'a>,
        methods: &Methods<'a>,
        texts: &Texts<'a>,
        site: Site,
        states: &[ClassState],
        store: &mut S,
        held: &mut Held,
        words: &mut [u32],
        at: &mut Registers<'l>,
        next: u32,
        insn: Insn<&[u8]>,
    ) -> Result<Effect, OutOfMemory> {
        execution_keeps();
        match insn {
            Insn::Division(kind, operator) => Ok(execute_division(words, at, next, kind, operator)),
            _ => execute_apart(
                classes, linked, methods, texts, site, states, store, held, words, at, next, insn,
            ),
        }
    }
}

/// New objects, and what is asked of their classes; each a call.
#[derive(Clone, Copy)]
pub struct Objects;

impl Execution for Objects {
    #[inline(always)]
    fn execute<'a, 'l, S: Store>(
        classes: &Classes<'a>,
        linked: &mut Linked<'a>,
        methods: &Methods<'a>,
        texts: &Texts<'a>,
        site: Site,
        states: &[ClassState],
        store: &mut S,
        held: &mut Held,
        words: &mut [u32],
        at: &mut Registers<'l>,
        next: u32,
        insn: Insn<&[u8]>,
    ) -> Result<Effect, OutOfMemory> {
        execution_keeps();
        let current = Current {
            classes,
            methods,
            states,
            site,
            next,
        };
        match insn {
            Insn::New(index) => {
                let mut own = *at;
                let result = create(current, linked, store, held, words, &mut own, index);
                at.pc = own.pc;
                at.top = own.top;
                result
            }
            Insn::CheckCast(index) => {
                let mut own = *at;
                let result = checkcast(current, linked, store, held, words, &mut own, index);
                at.pc = own.pc;
                at.top = own.top;
                Ok(result)
            }
            Insn::InstanceOf(index) => {
                let mut own = *at;
                let result = instanceof(current, linked, store, held, words, &mut own, index);
                at.pc = own.pc;
                at.top = own.top;
                Ok(result)
            }
            Insn::ReferenceArrayStore => {
                let mut own = *at;
                let result = aastore(classes, store, held, words, &mut own, next);
                at.pc = own.pc;
                at.top = own.top;
                Ok(result)
            }
            _ => execute_apart(
                classes, linked, methods, texts, site, states, store, held, words, at, next, insn,
            ),
        }
    }
}
