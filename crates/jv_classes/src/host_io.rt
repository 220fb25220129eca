//! host/Io, which is built in without a file.

ghost use Rattle.std.specs.Prelude.{◌≡◌, ◌++◌, ◌∷◌, [], IfOk, OnOk, map};
ghost use Rattle.jv_meaning_world.specs.System.Io.{io};
ghost use Rattle.jv_classes.specs.Inside.Kept.{Keeps};
ghost use Rattle.jv_classes.specs.Inside.Seen.{member_made, method_seen};

use crate::kept::Kept;
use crate::members::{Gathered, Members};
use std::alloc::{AllocError, Global};
use std::hash::RandomState;

const PUBLIC_STATIC: u16 = 0x0009;

const PUBLIC_FINAL_SUPER: u16 = 0x0031;

/// Adds a method behind the others.
fn add_method<'a>(
    gathered: &mut Gathered<'a>,
    access_flags: u16,
    name: &'a [u8],
    descriptor: &'a [u8],
) -> Result<(), AllocError>
    ensures { OnOk result (gathered.new.members ≡ gathered.old.members ++ member_made access_flags name.now descriptor.now ∷ []) }
{
    let name = gathered.add_text(name)?;
    let descriptor = gathered.add_text(descriptor)?;
    gathered.add(access_flags, name, descriptor)
}

fn io_methods<'a>(alloc: Global, state: RandomState) -> Result<Members<'a>, AllocError>
    ensures { IfOk result (λ methods. methods ≡ map method_seen io.methods) }
{
    let mut gathered = Gathered::with_capacity(alloc, state, 4)?;
    add_method(
        &mut gathered,
        PUBLIC_STATIC,
        b"read".as_slice(),
        b"()I".as_slice(),
    )?;
    add_method(
        &mut gathered,
        PUBLIC_STATIC,
        b"write".as_slice(),
        b"(I)V".as_slice(),
    )?;
    add_method(
        &mut gathered,
        PUBLIC_STATIC,
        b"className".as_slice(),
        b"(Ljava/lang/Object;I)I".as_slice(),
    )?;
    add_method(
        &mut gathered,
        PUBLIC_STATIC,
        b"arrayLike".as_slice(),
        b"([Ljava/lang/Object;I)[Ljava/lang/Object;".as_slice(),
    )?;
    Ok(gathered.members())
}

/// What is kept of host/Io.
pub(crate) fn kept_of_io<'a>(alloc: Global, state: RandomState) -> Result<Kept<'a>, AllocError>
    ensures { IfOk result (Keeps io) }
{
    let fields = Gathered::with_capacity(alloc, state, 0)?;
    let methods = io_methods(alloc, state)?;
    Ok(Kept {
        major: 52,
        access_flags: PUBLIC_FINAL_SUPER,
        name: b"host/Io".as_slice(),
        package_name: b"host".as_slice(),
        super_name: Some(b"java/lang/Object".as_slice()),
        fields: fields.members(),
        methods,
    })
}
