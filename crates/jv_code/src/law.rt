//! The laws of code.

ghost use Rattle.jv_code.specs.Places.{OneList, StandsInList, StartsApart, OneAtOffset, FitsThere, NextStarts, EachHasDistance, KeysRise};
ghost use Rattle.jv_code.specs.Operands.{StandsAsSpelled, BytesJoin};
ghost use Rattle.jv_code.specs.Switches.{DistancesStand, PairsStand};
ghost use Rattle.jv_code.specs.Unsupported.{CodeIsSupported};

/// Bytes are one list of instructions at most.
pub fn one_list()
    ensures { OneList }
{}

/// An instruction at a start is the one at that place of the list: the lengths of those before
/// it sum to its offset.
pub fn stands_in_list()
    ensures { StandsInList }
{}

/// Between the start of an instruction and its end no other starts.
pub fn starts_apart()
    ensures { StartsApart }
{}

/// At an offset stands one instruction at most.
pub fn one_at_offset()
    ensures { OneAtOffset }
{}

/// Distances of a tableswitch stand in their own bytes.
pub fn distances_stand()
    ensures { DistancesStand }
{}

/// Pairs of a lookupswitch stand in their own bytes.
pub fn pairs_stand()
    ensures { PairsStand }
{}

/// An instruction fits where it stands.
pub fn fits_there()
    ensures { FitsThere }
{}

/// Behind an instruction the next one starts, or the code ends.
pub fn next_starts()
    ensures { NextStarts }
{}

/// A tableswitch has a distance for each number from the lowest to the highest.
pub fn each_has_distance()
    ensures { EachHasDistance }
{}

/// The keys of a lookupswitch rise.
pub fn keys_rise()
    ensures { KeysRise }
{}

/// What is spelled where an instruction starts is the instruction there.
pub fn stands_as_spelled()
    ensures { StandsAsSpelled }
{}

/// Bytes at an offset and those behind them are bytes at that offset.
pub fn bytes_join()
    ensures { BytesJoin }
{}

/// Code, a list of instructions of the profile, has nothing outside the profile.
pub fn code_is_supported()
    ensures { CodeIsSupported }
{}
