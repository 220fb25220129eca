//! The laws of stack map frames.

ghost use Rattle.jv_stackmap.specs.Frames.{FillsLocals, OneMaps, OffsetsRise};
ghost use Rattle.jv_stackmap.specs.Rows.{WorkedRows};

/// Local entries whose words are within `max_locals` come to `max_locals` local variables (JVMS
/// 4.10.1.2).
pub fn fills_locals()
    ensures { FillsLocals }
{}

/// Bytes have one list of frames at most (JVMS 4.7.4).
pub fn one_maps()
    ensures { OneMaps }
{}

/// The offsets of frames rise, so one frame at most stands at an offset (JVMS 4.7.4).
pub fn offsets_rise()
    ensures { OffsetsRise }
{}

/// Worked rows of initial frames and of frames, computed.
pub fn worked_rows()
    ensures { WorkedRows }
{}
