//! Where an object is thrown.

ghost use Rattle.std.specs.Prelude.{◌≡◌, ◌<◌, ◌≤◌, drop, length, reverse};
ghost use Rattle.jv_interp_control.specs.Inside.Places.{record_place};

use crate::control::PlaceRecord;
use jv_interp_words::FrameRecord;

/// Where an object is thrown that comes to the frames with these records behind so many of the newest: at the instruction of the first
/// that is a method's.
pub(crate) fn place_behind(records: &[FrameRecord], passed: usize) -> Option<PlaceRecord>
    requires passed { passed ≤ length records.now }
    requires count { length records.now < 4294967296 }
    ensures { result ≡ record_place (drop passed (reverse records.now)) }
{
    for behind in passed..records.len() {
        if let FrameRecord::Runs(own) = records[records.len() - 1 - behind] {
            return Some(PlaceRecord {
                method: own.method,
                pc: own.pc,
            });
        }
    }
    None
}
