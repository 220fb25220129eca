//! Cells that are paid for what was made (own).

ghost use Rattle.std.specs.Prelude.{◌≡◌, ◌+◌, ◌≤◌, OnOk, OnErr};

use jv_store::OutOfMemory;

/// What something costs is taken from the cells that are left, if it was made. Where the host had no memory for it, all of them stay.
#[inline(always)]
pub fn pay_if_made(cells: &mut u32, cost: u32, made: &Result<u32, OutOfMemory>)
    requires { cost ≤ cells.old }
    ensures paid { OnOk made.now (cells.new + cost ≡ cells.old) }
    ensures kept { OnErr made.now (cells.new ≡ cells.old) }
{
    let due = match made {
        Ok(_) => cost,
        Err(_) => 0,
    };
    *cells = *cells - due;
}
