//! Writes a class file.

ghost use Rattle.std.specs.Prelude.{◌≡◌, ◌++◌, ◌<◌, ◌≤◌, ◌↔◌, Err, IfOk, IsOk, OnOk, IsTrue, map};
ghost use Rattle.jv_format.specs.Format.{half};
ghost use Rattle.jv_pool.specs.Constants.{pool_count, pool_bytes, pool_fits};
ghost use Rattle.jv_pool.specs.Seen.{seen};
ghost use Rattle.jv_class_structure.specs.Structure.{magic, table_bytes, table_fits, body_bytes, body_fits, class_bytes};
ghost use Rattle.jv_asm.specs.Description.{described_class, with_methods, described_with};
ghost use Rattle.jv_asm.specs.Fits.{IsFit};
ghost use Rattle.jv_asm.specs.declared.fault.AsmFault.TheVariants.{TooLarge};

use crate::constant::entries;
use crate::description::Description;
use crate::fault::AsmFault;
use crate::member::{Method, methods_fit, put_methods};
use crate::part::{
    all_fit, are_halves, half_fits, halves_fit, put_all, put_half, put_halves, put_table,
    table_fits,
};
use jv_pool::Constant;
use std::alloc::{AllocError, Global};

/// One more than the entries of the table (4.1), or 65,536 where there are more than that.
fn count_of(pool: &[Constant<&[u8]>]) -> u64
    ensures few { result < 65536 → result ≡ pool_count (map seen pool.now) }
    ensures many { 65536 ≤ result → 65536 ≤ pool_count (map seen pool.now) }
{
    let mut count = 1;
    for constant in pool {
        count += entries(constant);
        if count > 65535 {
            return 65536;
        }
    }
    count
}

fn pool_fits(pool: &[Constant<&[u8]>]) -> bool
    ensures { result ≡ pool_fits (map seen pool.now) }
{
    count_of(pool) < 65536 && all_fit(pool)
}

fn body_fits<M: Method>(description: &Description<'_>, methods: &[M]) -> bool
    ensures { result ≡ body_fits (with_methods (described_class description.now) (map M.method methods.now)) }
{
    halves_fit(description.access_flags, description.this_class)
        && half_fits(description.super_class)
        && are_halves(description.interfaces)
        && table_fits(description.fields)
        && methods_fit(methods)
        && table_fits(description.attributes)
}

/// What stands before the fields, the pool aside.
pub(crate) fn put_names(
    out: &mut Vec<u8>,
    access_flags: u16,
    this_class: u16,
    super_class: u16,
    interfaces: &[u16],
) -> Result<(), AllocError>
    requires { IsTrue (table_fits half.fits interfaces.now) }
    ensures { OnOk result (out.new.items ≡ out.old.items ++ half.spelling access_flags
        ++ half.spelling this_class ++ half.spelling super_class
        ++ table_bytes half.spelling interfaces.now) }
{
    put_half(out, access_flags)?;
    put_half(out, this_class)?;
    put_half(out, super_class)?;
    put_halves(out, interfaces)
}

/// What stands behind the pool.
fn put_body<M: Method>(
    out: &mut Vec<u8>,
    description: &Description<'_>,
    methods: &[M],
) -> Result<(), AllocError>
    requires { IsTrue (body_fits (with_methods (described_class description.now) (map M.method methods.now))) }
    ensures { OnOk result (out.new.items ≡ out.old.items ++ body_bytes (described_with description.now (map M.method methods.now))) }
{
    put_names(
        out,
        description.access_flags,
        description.this_class,
        description.super_class,
        description.interfaces,
    )?;
    put_table(out, description.fields)?;
    put_methods(out, methods)?;
    put_table(out, description.attributes)
}

/// The pool behind its count.
fn put_pool(out: &mut Vec<u8>, pool: &[Constant<&[u8]>]) -> Result<(), AllocError>
    requires { IsTrue (pool_fits (map seen pool.now)) }
    ensures { OnOk result (out.new.items ≡ out.old.items ++ pool_bytes (map seen pool.now)) }
{
    put_half(out, count_of(pool) as u16)?;
    put_all(out, pool)
}

/// What stands before the pool.
pub(crate) fn put_header(out: &mut Vec<u8>, minor: u16, major: u16) -> Result<(), AllocError>
    ensures { OnOk result (out.new.items ≡ out.old.items ++ magic ++ half.spelling minor ++ half.spelling major) }
{
    out.extend_from_slice(&[0xca, 0xfe, 0xba, 0xbe])?;
    put_half(out, minor)?;
    put_half(out, major)
}

/// Whether all counts and lengths fit their fields.
fn is_fit<M: Method>(description: &Description<'_>, methods: &[M]) -> bool
    ensures { IsTrue result ↔ IsFit (with_methods (described_class description.now) (map M.method methods.now)) }
{
    pool_fits(description.constant_pool) && body_fits(description, methods)
}

/// The bytes of a class file whose numbers fit.
fn written<M: Method>(
    alloc: Global,
    description: &Description<'_>,
    methods: &[M],
) -> Result<Vec<u8>, AllocError>
    requires { IsFit (with_methods (described_class description.now) (map M.method methods.now)) }
    ensures { IfOk result (λ bytes. bytes.items ≡ class_bytes (with_methods (described_class description.now) (map M.method methods.now))) }
{
    let mut out = Vec::new(alloc);
    put_header(
        &mut out,
        description.minor_version,
        description.major_version,
    )?;
    put_pool(&mut out, description.constant_pool)?;
    put_body(&mut out, description, methods)?;
    Ok(out)
}

/// The bytes of the class file that a description stands for (4.1), with these methods in place of
/// its own.
///
/// # Errors
///
/// `TooLarge` exactly where a count or a length does not fit its field, `OutOfMemory` where the host's
/// memory was refused.
pub fn write_class_with<M: Method>(
    alloc: Global,
    description: &Description<'_>,
    methods: &[M],
) -> Result<Vec<u8>, AsmFault>
    ensures ok { IfOk result (λ bytes. bytes.items ≡ class_bytes (described_with description.now (map M.method methods.now))) }
    ensures fits { IsOk result → IsFit (with_methods (described_class description.now) (map M.method methods.now)) }
    ensures too_large { (result ≡ Err TooLarge) ↔ ¬ IsFit (with_methods (described_class description.now) (map M.method methods.now)) }
{
    if !is_fit(description, methods) {
        return Err(AsmFault::TooLarge);
    }
    let bytes = written(alloc, description, methods)?;
    Ok(bytes)
}

/// The bytes of the class file that a description stands for (4.1).
///
/// # Errors
///
/// `TooLarge` exactly where a count or a length does not fit its field, `OutOfMemory` where the host's
/// memory was refused.
pub fn write_class(alloc: Global, description: &Description<'_>) -> Result<Vec<u8>, AsmFault>
    ensures ok { IfOk result (λ bytes. bytes.items ≡ class_bytes (described_class description.now)) }
    ensures fits { IsOk result → IsFit (described_class description.now) }
    ensures too_large { (result ≡ Err TooLarge) ↔ ¬ IsFit (described_class description.now) }
{
    write_class_with(alloc, description, description.methods)
}
