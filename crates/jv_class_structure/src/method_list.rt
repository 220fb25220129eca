//! The methods of a class as they are kept: eight bytes each, and beside them what holds the code of those that have code.

ghost use Rattle.std.specs.Prelude.{◌≡◌, ◌+◌, ◌<◌, ◌≤◌, [], ◌∷◌, ◌++◌, length, IfOk, OnOk, slice_get};
ghost use Rattle.std.specs.Option.{option_map};
ghost use Rattle.jv_class_structure.specs.Seen.{seen_method};
ghost use Rattle.jv_class_structure.specs.Inside.Kept.{seen_codes, numbered, seen_kept, seen_list, IsOneMore, AreNumbered};

use crate::flags::MethodFlags;
use crate::member::{Method, PackedCode};
use jv_pool::Utf8Index;
use std::alloc::{AllocError, Global};

/// A method, without its code.
#[derive(Clone, Copy)]
pub(crate) struct KeptMethod {
    pub(crate) access_flags: MethodFlags,
    pub(crate) name: Utf8Index,
    pub(crate) descriptor: Utf8Index,
    /// The number of its code, where the first has 1; 0 where the method has no Code attribute.
    pub(crate) code: u16,
}

const _: () = prove!(size_of::<KeptMethod>() <= 8);

/// The methods of a class. Lists of methods without code cost the host what they cost the file, eight bytes each.
#[derive(Drop)]
pub(crate) struct MethodList<'a> {
    pub(crate) kept: Vec<KeptMethod>,
    pub(crate) codes: Vec<PackedCode<'a>>,
}

/// Adds a method's code, where it has any, and gives its number.
fn number_of<'a>(
    codes: &mut Vec<PackedCode<'a>>,
    code: Option<PackedCode<'a>>,
) -> Result<u16, AllocError>
    requires { length codes.old.items < 65535 }
    ensures number { IfOk result (λ number. seen_codes (numbered codes.new.items number) ≡ seen_codes code.entry) }
    ensures within { IfOk result (λ number. number ≤ length codes.new.items) }
    ensures more { OnOk result (IsOneMore codes.old.items codes.new.items) }
{
    let Some(code) = code else {
        return Ok(0);
    };
    codes.push(code)?;
    Ok(codes.len() as u16)
}

/// The code with a number.
fn code_numbered<'a>(codes: &[PackedCode<'a>], number: u16) -> Option<PackedCode<'a>>
    ensures { seen_codes result ≡ seen_codes (numbered codes.now number) }
{
    if number == 0 {
        return None;
    }
    match codes.get(usize::from(number) - 1) {
        Some(code) => Some(*code),
        None => None,
    }
}

impl<'a> MethodList<'a> {
    /// No methods, with room for as many.
    pub(crate) fn with_capacity(alloc: Global, room: usize) -> Result<MethodList<'a>, AllocError>
        ensures none { IfOk result (λ list. list.kept.items ≡ []) }
        ensures numbered { IfOk result AreNumbered }
    {
        let kept = Vec::with_capacity(alloc, room)?;
        let codes = Vec::new(alloc);
        Ok(MethodList { kept, codes })
    }

    /// Adds a method at the end.
    pub(crate) fn push(&mut self, method: Method<'a>) -> Result<(), AllocError>
        requires numbered { AreNumbered self.old }
        requires room { length self.old.kept.items < 65535 }
        ensures numbered { OnOk result (AreNumbered self.new) }
        ensures list { OnOk result (seen_list self.new ≡ seen_list self.old ++ seen_method method.entry ∷ []) }
        ensures longer { OnOk result (length self.new.kept.items ≡ length self.old.kept.items + 1) }
    {
        let code = number_of(&mut self.codes, method.code)?;
        self.kept.push(KeptMethod {
            access_flags: method.access_flags,
            name: method.name,
            descriptor: method.descriptor,
            code,
        })?;
        Ok(())
    }

    /// Gives back the room behind the last code.
    pub(crate) fn shrink_to_fit(&mut self)
        ensures { seen_list self.new ≡ seen_list self.old }
    {
        self.codes.shrink_to_fit();
    }

    /// How many methods there are.
    pub(crate) fn len(&self) -> usize
        ensures { result ≡ length (seen_list self.now) }
    {
        self.kept.len()
    }

    /// The method that is kept so.
    fn method(&self, kept: KeptMethod) -> Method<'a>
        ensures { seen_method result ≡ seen_kept self.now.codes.items kept }
    {
        Method {
            access_flags: kept.access_flags,
            name: kept.name,
            descriptor: kept.descriptor,
            code: code_numbered(&self.codes, kept.code),
        }
    }

    /// The method at a place, the first at 0; `None` behind the last.
    pub(crate) fn get(&self, place: usize) -> Option<Method<'a>>
        ensures { option_map seen_method result ≡ slice_get (seen_list self.now) place }
    {
        match self.kept.get(place) {
            Some(kept) => Some(self.method(*kept)),
            None => None,
        }
    }
}
