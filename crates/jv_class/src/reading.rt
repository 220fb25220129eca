//! Reads a class file.

ghost use Rattle.std.specs.Prelude.{◌≡◌, ◌≢◌, IfOk, Err};
ghost use Rattle.jv_format.specs.Format.{Finds};
ghost use Rattle.jv_class_structure.specs.Structure.{ClassStructure};
ghost use Rattle.jv_class_structure.specs.Version.{is_supported_version};
ghost use Rattle.jv_class.specs.ClassFile.{IsClassFile, IsOtherVersion, IsUnsupportedFile};
ghost use Rattle.jv_class.specs.Supported.{IsSupported};
ghost use Rattle.jv_class.specs.Inside.Reading.{magic_number, header, IsWholeBehind};
ghost use Rattle.jv_class.specs.declared.fault.ClassFault.TheVariants.{Version, Format, Unsupported};

use crate::class_file::{ClassFile, class_of};
use crate::fault::ClassFault;
use jv_class_structure::{PartsFault, one_behind_version, read_parts};
use jv_format::{half_at, quad_at};
use std::alloc::Global;

/// What follows the magic number.
fn magic_at(bytes: &[u8]) -> Option<&[u8]>
    ensures { Finds magic_number bytes.now (λ rest. (3405691582, rest.now)) result }
{
    let Some((found, rest)) = quad_at(bytes) else {
        return None;
    };
    if found == 0xcafe_babe {
        Some(rest)
    } else {
        None
    }
}

/// The minor and the major version behind the magic number, and what follows.
fn version_at(bytes: &[u8]) -> Option<((u16, u16), &[u8])>
    ensures { Finds header bytes.now (λ x. ((3405691582, (x.0.0, x.0.1)), x.1.now)) result }
{
    let Some(rest) = magic_at(bytes) else {
        return None;
    };
    let Some((minor, rest)) = half_at(rest) else {
        return None;
    };
    let Some((major, rest)) = half_at(rest) else {
        return None;
    };
    Some(((minor, major), rest))
}

fn is_supported_version(minor: u16, major: u16) -> bool
    ensures { result ≡ is_supported_version minor major }
{
    minor == 0 && (major == 50 || major == 51 || major == 52)
}

/// The class file whose bytes behind the version these are, which is this major version and 0.
fn class_behind<'a>(alloc: Global, major: u16, bytes: &'a [u8]) -> Result<ClassFile<'a>, ClassFault>
    ensures ok { IfOk result (λ c. IsWholeBehind major bytes.now c) }
    ensures supported { IfOk result (λ c. IsSupported c) }
    ensures format { result ≡ Err Format → (c : ClassStructure) → IsWholeBehind major bytes.now c → ⊥ }
    ensures unsupported { result ≡ Err Unsupported → (c : ClassStructure) × IsWholeBehind major bytes.now c × (IsSupported c → ⊥) }
    ensures version { result ≢ Err Version }
{
    match read_parts(alloc, major, bytes) {
        Ok(parts) => {
            one_behind_version();
            class_of(alloc, parts)
        }
        Err(PartsFault::Format) => Err(ClassFault::Format),
        Err(PartsFault::OutOfMemory) => Err(ClassFault::OutOfMemory),
    }
}

/// The class file that the bytes are (JVMS 4.1).
///
/// A refused call keeps nothing.
///
/// # Errors
///
/// `Version` where the bytes begin like a class file of another version than 50.0, 51.0 and 52.0,
/// `Format` where they are no class file else, `Unsupported` where they are one with more than this
/// host's profile has, its code aside, and `OutOfMemory` where the host had none for what was read.
pub fn read_class<'a>(alloc: Global, bytes: &'a [u8]) -> Result<ClassFile<'a>, ClassFault>
    ensures ok { IfOk result (λ c. IsClassFile bytes.now c) }
    ensures supported { IfOk result (λ c. IsSupported c) }
    ensures version { result ≡ Err Version → IsOtherVersion bytes.now }
    ensures unsupported { result ≡ Err Unsupported → IsUnsupportedFile bytes.now }
    ensures format_no_class { result ≡ Err Format → (c : ClassStructure) → IsClassFile bytes.now c → ⊥ }
    ensures format_no_version { result ≡ Err Format → IsOtherVersion bytes.now → ⊥ }
{
    let Some(((minor, major), rest)) = version_at(bytes) else {
        return Err(ClassFault::Format);
    };
    if !is_supported_version(minor, major) {
        return Err(ClassFault::Version);
    }
    class_behind(alloc, major, rest)
}
