//! A frame as a stack map has it (JVMS 4.7.4).

use crate::item::Item;

/// The `stack_map_frame` of 4.7.4, in its seven forms, where `L` is a list of items. A number alone
/// is the `offset_delta`. Definitions speak of these; the code goes from bytes to entries at once.
pub enum Form<L> {
    /// Types 0 to 63, `same_frame`: the type is the delta.
    Same(u8),
    /// Types 64 to 127, `same_locals_1_stack_item_frame`: the type is 64 more than the delta.
    SameItem(u8, Item),
    /// Type 247, `same_locals_1_stack_item_frame_extended`.
    SameItemExtended(u16, Item),
    /// Types 248 to 250, `chop_frame`: how many local entries go, and the delta.
    Chop(u8, u16),
    /// Type 251, `same_frame_extended`.
    SameExtended(u16),
    /// Types 252 to 254, `append_frame`: the delta, and one to three local entries.
    Append(u16, L),
    /// Type 255, `full_frame`: the delta, the local entries and the stack.
    Full(u16, L, L),
}
