//! A frame that is changed in place.

ghost use Rattle.std.specs.Prelude.{◌≡◌, ℕ, List, [], false, length, set, slice_get, MatchOption, reverse, IfOk, OnOk, OnErr, IfNone};
ghost use Rattle.std.specs.List.{list_any};
ghost use Rattle.jv_meaning_typing.specs.FrameChanges.{is_same_object};
ghost use Rattle.jv_verify_types.specs.Typed.{typed, typed_all};
ghost use Rattle.jv_verify_frame.specs.Inside.Noted.{is_among, is_in_local};
ghost use Rattle.jv_verify_types.specs.Numbered.{blank, topped, with_flag, with_locals, with_stack, without_flag, stack_words, item_words, StoresAny, ReplacesAny, words_of_item};

use crate::items::Items;
use crate::variables::Variables;
use jv_verify_types::{Item, words_of};
use std::alloc::{AllocError, Global};
use std::marker::Model;

/// A frame (JVMS 4.10.1.4): local variables, a long as long and top, the stack's items, where a long is one
/// item of two words, and whether `this` may not be initialized.
pub struct TypeFrame {
    locals: Variables,
    stack: Items,
    words: usize,
    flag: bool,
}

impl Model for TypeFrame {
    ghost use Rattle.std.specs.Prelude.{◌≡◌, reverse};
    ghost use Rattle.jv_verify_types.specs.Numbered.{NumberFrame, stack_words};

    ghost Value = { NumberFrame };

    ghost view = { λ f. record { locals = f.locals; stack = reverse f.stack; flag_this_uninit = f.flag } };

    ghost invariant = { λ f. f.words ≡ stack_words (reverse f.stack) };
}

impl Drop for TypeFrame {
    fn drop(self) {
        let TypeFrame {
            locals: _,
            stack: _,
            words: _,
            flag: _,
        } = self;
    }
}

impl TypeFrame {
    /// Local variables that hold nothing, an empty stack, and no flag.
    ///
    /// # Errors
    ///
    /// Where the host had no memory for the local variables.
    pub fn new(alloc: Global, max_locals: u16) -> Result<TypeFrame, AllocError>
        ensures { IfOk result (λ frame. frame ≡ blank max_locals) }
    {
        let locals = Variables::tops(alloc, usize::from(max_locals))?;
        Ok(TypeFrame {
            locals,
            stack: Items::new(alloc),
            words: 0,
            flag: false,
        })
    }

    /// Takes all from the local variables and the stack, and the flag.
    pub fn clear(&mut self)
        ensures { self.new ≡ blank (length self.old.locals) }
    {
        self.locals.make_tops();
        self.stack.clear();
        self.words = 0;
        self.clear_flag();
    }

    /// Takes all away, and comes to have so many local variables.
    ///
    /// # Errors
    ///
    /// Where the host had no memory for the local variables; the frame is then of no more use.
    pub fn renew(&mut self, max_locals: u16) -> Result<(), AllocError>
        ensures { OnOk result (self.new ≡ blank max_locals) }
    {
        self.stack.clear();
        self.words = 0;
        self.clear_flag();
        self.locals.renew(usize::from(max_locals))?;
        Ok(())
    }

    /// `this` may not be initialized, or is.
    pub fn set_flag(&mut self, flag: bool)
        ensures { self.new ≡ with_flag flag self.old }
    {
        self.flag = flag;
    }

    /// How many items the stack has.
    pub fn height(&self) -> usize
        ensures { result ≡ length self.now.stack }
    {
        self.stack.len()
    }

    /// Turns the stack over: what was on top comes to be the lowest.
    pub fn turn_stack(&mut self)
        ensures { self.new ≡ with_stack (reverse self.old.stack) self.old }
    {
        self.stack.turn();
    }

    /// Whether `this` may not be initialized.
    pub fn flag_this_uninit(&self) -> bool
        ensures { result ≡ self.now.flag_this_uninit }
    {
        self.flag
    }

    /// The words of the stack's items.
    pub fn stack_words(&self) -> usize
        ensures { result ≡ stack_words self.now.stack }
    {
        self.words
    }

    /// How many local variables there are.
    #[inline]
    pub fn local_count(&self) -> usize
        ensures { result ≡ length self.now.locals }
    {
        self.locals.len()
    }

    /// The type of a local variable, where there is one with the index.
    #[inline]
    pub fn local(&self, index: u16) -> Option<Item>
        ensures { result ≡ slice_get self.now.locals index }
    {
        self.locals.get(usize::from(index))
    }

    /// Takes the item on top; `None` where the stack is empty.
    pub fn pop(&mut self) -> Option<Item>
        ensures taken { MatchOption result (self.new ≡ self.old) (λ item. self.old ≡ topped self.new item) }
        ensures empty { IfNone result (self.old.stack ≡ []) }
    {
        let item = self.stack.pop()?;
        self.words -= usize::from(words_of(item));
        Some(item)
    }

    /// Puts an item on top.
    ///
    /// # Errors
    ///
    /// Where the host had no memory for it; nothing has then changed.
    #[inline(always)]
    pub fn push(&mut self, item: Item) -> Result<(), AllocError>
        ensures ok { OnOk result (self.new ≡ topped self.old item) }
        ensures refused { OnErr result (self.new ≡ self.old) }
    {
        let Some(words) = self.words.checked_add(usize::from(words_of(item))) else {
            return Err(AllocError);
        };
        self.stack.push(item)?;
        self.words = words;
        Ok(())
    }

    /// The item below so many others, where there is one.
    pub fn item(&self, depth: usize) -> Option<Item>
        ensures { result ≡ slice_get self.now.stack depth }
    {
        let below = self.stack.len().checked_sub(depth)?;
        let place = below.checked_sub(1)?;
        self.stack.get(place)
    }

    /// Stores an item in a local variable, a long in this one and the next, and says whether there are as
    /// many. A long that loses its second word to it becomes top.
    #[inline]
    pub fn store(&mut self, index: u16, item: Item) -> bool
        ensures stored { StoresAny result (words_of_item item) index self.old.locals self.new.locals }
        ensures same { self.new ≡ with_locals self.new.locals self.old }
    {
        self.locals.store(index, item)
    }

    /// Gives a local variable a type, where there is one with the index, and leaves those beside it as they are.
    pub fn put(&mut self, index: u16, item: Item)
        ensures { self.new ≡ with_locals (set self.old.locals index item) self.old }
    {
        self.locals.put(index, item);
    }

    /// Takes all from the stack.
    pub fn clear_stack(&mut self)
        ensures { self.new ≡ with_stack [] self.old }
    {
        self.stack.clear();
        self.words = 0;
    }

    /// Whether an object that is not initialized is in a local variable.
    pub fn has_in_locals(&self, object: Item) -> bool
        ensures { (names : List (List ℕ)) → result ≡ list_any (is_same_object (typed names object)) (typed_all names self.now.locals) }
    {
        self.locals.has(object)
    }

    /// The places of local variables in which an object that is not initialized is.
    ///
    /// # Errors
    ///
    /// Where the host had no memory for them.
    pub fn copies_in_locals(&self, alloc: Global, object: Item) -> Result<Vec<u16>, AllocError>
        ensures { IfOk result (λ places. (names : List (List ℕ)) (k : ℕ) → is_among places.items k ≡ false
            → is_in_local (typed names object) (typed_all names self.now.locals) k ≡ false) }
    {
        let places = self.locals.copies(alloc, object)?;
        Ok(places)
    }

    /// The places of the stack at which an object that is not initialized is, counted from the lowest item.
    ///
    /// # Errors
    ///
    /// Where the host had no memory for them.
    pub fn copies_on_stack(&self, alloc: Global, object: Item) -> Result<Vec<u16>, AllocError>
        ensures { IfOk result (λ places. (names : List (List ℕ)) (k : ℕ) → is_among places.items k ≡ false
            → is_in_local (typed names object) (typed_all names (reverse self.now.stack)) k ≡ false) }
    {
        let height = self.stack.len();
        let places = self.stack.copies(alloc, object, height)?;
        Ok(places)
    }

    /// Whether an object that is not initialized is on the stack.
    pub fn has_on_stack(&mut self, object: Item) -> bool
        ensures found { (names : List (List ℕ)) → result ≡ list_any (is_same_object (typed names object)) (typed_all names self.old.stack) }
        ensures same { self.new ≡ self.old }
    {
        self.stack.find(object)
    }

    /// Gives all copies of an object that is not initialized in local variables a type.
    pub fn replace_locals(&mut self, object: Item, by: Item)
        ensures locals { ReplacesAny object by self.old.locals self.new.locals }
        ensures same { self.new ≡ with_locals self.new.locals self.old }
    {
        self.locals.replace(object, by);
    }

    /// Gives all copies of an object that is not initialized on the stack a type of one word.
    pub fn replace_stack(&mut self, object: Item, by: Item)
        requires { item_words by ≡ 1 }
        ensures stack { ReplacesAny object by self.old.stack self.new.stack }
        ensures same { self.new ≡ with_stack self.new.stack self.old }
    {
        let height = self.stack.len();
        self.stack.replace(object, by, height);
    }

    /// `this` is initialized from now on.
    pub fn clear_flag(&mut self)
        ensures { self.new ≡ without_flag self.old }
    {
        self.flag = false;
    }
}
