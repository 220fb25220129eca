//! Where a jump goes (JVMS 6.5).

ghost use Rattle.std.specs.Prelude.{◌≡◌};
ghost use Rattle.jv_code.specs.Targets.{target_of};

/// The offset at a distance from an instruction's own; `None` where it is below 0, or past what
/// 32 bits hold.
pub fn target_of(pc: u32, distance: i32) -> Option<u32>
    ensures { result ≡ target_of pc distance }
{
    let target = i64::from(pc) + i64::from(distance);
    if target < 0 || target > 4294967295 {
        return None;
    }
    Some(target as u32)
}
