//! Worked rows of the machine.

ghost use Rattle.jv_meaning_machine.specs.Rows.Machine.{OutputRows, ObjectRows, ArrayRows, HostRows};
ghost use Rattle.jv_meaning_machine.specs.Rows.Initialization.{InitializationRows};
ghost use Rattle.jv_meaning_machine.specs.Rows.Arithmetic.{IntRows, LongRows, ShiftRows, ConversionRows};
ghost use Rattle.jv_meaning_machine.specs.Rows.Arrays.{ArrayLoadRows, ArrayStoreRows, NewArrayRows};
ghost use Rattle.jv_meaning_machine.specs.Rows.Casts.{CastRows, InstanceOfRows};
ghost use Rattle.jv_meaning_machine.specs.Rows.Links.{LinkErrorRows, LinkOrderRows};
ghost use Rattle.jv_meaning_machine.specs.Rows.Throws.{HandlerRows, PassedRows, PlaceRows, ConstructionRows};
ghost use Rattle.jv_meaning_machine.specs.Rows.Members.{ConstantRows, FieldRows, CallRows};
ghost use Rattle.jv_meaning_machine.specs.Rows.Stack.{FormRows, LocalRows, BranchRows, SwitchRows};
ghost use Rattle.jv_meaning_machine.specs.Rows.Faults.{FaultRows};
ghost use Rattle.jv_meaning_machine.specs.Rows.Feeds.{FeedRows};

/// Worked rows: output, input and the ends, computed.
pub fn output_rows()
    ensures { OutputRows }
{}

/// Worked rows: numbers, handlers, calls and objects, computed.
pub fn object_rows()
    ensures { ObjectRows }
{}

/// Worked rows: arrays, computed.
pub fn array_rows()
    ensures { ArrayRows }
{}

/// Worked rows: host/Io's methods that are given objects, computed.
pub fn host_rows()
    ensures { HostRows }
{}

/// Worked rows: initialization and string literals, computed.
pub fn initialization_rows()
    ensures { InitializationRows }
{}

/// Worked rows: a smallest program for each fault, computed.
pub fn fault_rows()
    ensures { FaultRows }
{}

/// Worked rows: each instruction that computes with ints, computed.
pub fn int_rows()
    ensures { IntRows }
{}

/// The same with longs.
pub fn long_rows()
    ensures { LongRows }
{}

/// Worked rows: shifts, computed.
pub fn shift_rows()
    ensures { ShiftRows }
{}

/// Worked rows: conversions of numbers, computed.
pub fn conversion_rows()
    ensures { ConversionRows }
{}

/// Worked rows: forms of the stack, computed.
pub fn form_rows()
    ensures { FormRows }
{}

/// Worked rows: local variables, computed.
pub fn local_rows()
    ensures { LocalRows }
{}

/// Worked rows: branches, computed.
pub fn branch_rows()
    ensures { BranchRows }
{}

/// Worked rows: switches, computed.
pub fn switch_rows()
    ensures { SwitchRows }
{}

/// Worked rows: loads from arrays, computed.
pub fn array_load_rows()
    ensures { ArrayLoadRows }
{}

/// Worked rows: stores into arrays, computed.
pub fn array_store_rows()
    ensures { ArrayStoreRows }
{}

/// Worked rows: new arrays, computed.
pub fn new_array_rows()
    ensures { NewArrayRows }
{}

/// Worked rows: checkcast, computed.
pub fn cast_rows()
    ensures { CastRows }
{}

/// Worked rows: instanceof, computed.
pub fn instance_of_rows()
    ensures { InstanceOfRows }
{}

/// Worked rows: each error of linking, computed.
pub fn link_error_rows()
    ensures { LinkErrorRows }
{}

/// Worked rows: what comes first in an instruction that links, computed.
pub fn link_order_rows()
    ensures { LinkOrderRows }
{}

/// Worked rows: handlers, computed.
pub fn handler_rows()
    ensures { HandlerRows }
{}

/// Worked rows: throws that pass initializations, and constants of fields, computed.
pub fn passed_rows()
    ensures { PassedRows }
{}

/// Worked rows: where the last throw was, computed.
pub fn place_rows()
    ensures { PlaceRows }
{}

/// Worked rows: construction of objects, computed.
pub fn construction_rows()
    ensures { ConstructionRows }
{}

/// Worked rows: constants that are pushed, computed.
pub fn constant_rows()
    ensures { ConstantRows }
{}

/// Worked rows: what fields hold, computed.
pub fn field_rows()
    ensures { FieldRows }
{}

/// Worked rows: how values are passed and returned, computed.
pub fn call_rows()
    ensures { CallRows }
{}

/// Worked rows: a guest that is fed while it runs, computed.
pub fn feed_rows()
    ensures { FeedRows }
{}
