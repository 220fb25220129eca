//! The numbers of classes, in two bytes each.

ghost use Rattle.std.specs.Prelude.{◌≡◌, ℕ, suc, IfOk, IfSome};

use std::alloc::AllocError;
use std::marker::Model;

/// One more than the number of a class; 0 where there is none.
#[derive(Drop)]
pub(crate) struct KeptNumber {
    behind: u16,
}

impl Model for KeptNumber {
    ghost use Rattle.std.specs.Prelude.{ℕ, Option};
    ghost use Rattle.jv_verify_types.specs.Inside.Kept.{number_before};

    ghost Value = { Option ℕ };

    ghost view = { λ c. number_before c.behind };
}

/// One more than a number, in 16 bits; `None` where it has no room there.
fn behind(number: usize) -> Option<u16>
    ensures { IfSome result (λ n. n ≡ suc number) }
{
    match u16::try_from(number) {
        Ok(short) => short.checked_add(1),
        Err(_) => None,
    }
}

/// The number of a class, or none; want of memory where it has no room in 16 bits.
pub(crate) fn kept_number(class: Option<usize>) -> Result<KeptNumber, AllocError>
    ensures { IfOk result (λ c. c ≡ class) }
{
    let Some(number) = class else {
        return Ok(KeptNumber { behind: 0 });
    };
    match behind(number) {
        Some(behind) => Ok(KeptNumber { behind }),
        None => Err(AllocError),
    }
}

impl KeptNumber {
    /// The number of the class, or none.
    #[inline]
    pub(crate) fn number(&self) -> Option<usize>
        ensures { result ≡ self.now }
    {
        match self.behind.checked_sub(1) {
            Some(number) => Some(usize::from(number)),
            None => None,
        }
    }
}
