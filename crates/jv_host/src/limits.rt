//! What the host takes.

ghost use Rattle.std.specs.Prelude.{◌≡◌, nat_lt, length};
ghost use Rattle.jv_host.specs.Files.{guest_of};
ghost use Rattle.jv_interp.specs.Started.{budget_of};
ghost use Rattle.jv_format.specs.Numbers.{is_from_to};
ghost use Rattle.jv_host.specs.Limits.{first_other_refusal, first_refusal, is_in_range};

use crate::files::GuestFiles;
use jv_interp::Budget;
use jv_limits::{AdmitFault, first_file_refusal};

/// The most bytes of a guest's input, at admission and by all feeds together.
pub(crate) const INPUT_BYTES: usize = 16_777_216;

/// The most guests.
const GUESTS: usize = 64;

/// The most files of a library.
const LIBRARY_FILES: usize = 1024;

fn is_from_to(least: u32, most: u32, n: u32) -> bool
    ensures { result ≡ is_from_to least most n }
{
    least <= n && n <= most
}

/// Whether each number of a budget is one that a guest may have.
fn is_in_range(budget: Budget) -> bool
    ensures { result ≡ is_in_range (budget_of budget) }
{
    is_from_to(64, 16_777_216, budget.cells)
        && is_from_to(64, 1_048_576, budget.words)
        && budget.output <= 1_048_576
}

fn has_long_input(files: &GuestFiles<'_>) -> bool
    ensures { result ≡ nat_lt 16777216 (length (guest_of files.now).input) }
{
    files.input.len() > INPUT_BYTES
}

/// The first other reason to refuse a guest, where so many are held.
fn first_other_refusal(files: &GuestFiles<'_>, budget: Budget, guests: usize) -> Option<AdmitFault>
    ensures { result ≡ first_other_refusal (guest_of files.now) (budget_of budget) guests }
{
    if files.system.library_count() > LIBRARY_FILES {
        Some(AdmitFault::TooManyFiles)
    } else if has_long_input(files) {
        Some(AdmitFault::InputTooLong)
    } else if !is_in_range(budget) {
        Some(AdmitFault::BudgetOutOfRange)
    } else if guests >= GUESTS {
        Some(AdmitFault::TooManyGuests)
    } else {
        None
    }
}

/// The first reason to refuse a guest, where so many are held.
pub(crate) fn first_refusal(
    files: &GuestFiles<'_>,
    budget: Budget,
    guests: usize,
) -> Option<AdmitFault>
    ensures { result ≡ first_refusal (guest_of files.now) (budget_of budget) guests }
{
    match first_file_refusal(files.files) {
        Some(fault) => Some(fault),
        None => first_other_refusal(files, budget, guests),
    }
}
