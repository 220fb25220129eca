//! The structs that cross to C, and what is told in them.

ghost use Rattle.std.specs.Prelude.{◌≡◌};
ghost use Rattle.jv_host.specs.Started.{budget_of};
ghost use Rattle.jv_host.specs.Showing.{observed_of, seen_place};
ghost use Rattle.jv_host.specs.Files.{guest_of};
ghost use Rattle.jv_program_base.specs.Verdict.{rule_number};
ghost use Rattle.libjvhost.specs.Told.{AreNumbers, IsFaultTold, IsPlaceTold, budget_told, files_told, reason_number, told_verdict};

use jv_host::{Budget, GuestEnd, GuestFiles, Observation, ThrowPlace};
use jv_loader::{LibraryFault, SystemFiles};
use jv_meaning_typing::{Verdict, VerifyFault, VerifyRule};
use jv_meaning_world::LoadVerdict;

/// The bytes of a `Guest`, by which a caller says that it means this struct.
pub(crate) const GUEST_SIZE: usize = 72;

/// The bytes of a `Seen`.
pub(crate) const SEEN_SIZE: usize = 48;

/// The bytes of a `ToldPlace`.
pub(crate) const PLACE_SIZE: usize = 40;

/// The bytes of a `ToldFault`.
pub(crate) const FAULT_SIZE: usize = 24;

/// What a guest brings, and what it may use: `jvhost_guest`.
#[repr(C)]
#[derive(Clone, Copy)]
pub struct Guest<'a> {
    /// The bytes of this struct.
    pub size: usize,
    /// Its class files.
    pub files: &'a [&'a [u8]],
    /// The name of its main class.
    pub main: &'a [u8],
    /// What it can read at once.
    pub input: &'a [u8],
    /// Cells for objects.
    pub cells: u32,
    /// Words for frames.
    pub words: u32,
    /// Bytes that it may write.
    pub output: u32,
}

/// What a guest shows, in numbers: `jvhost_seen`.
#[repr(C)]
#[derive(Clone, Copy)]
pub struct Seen {
    /// The bytes of this struct.
    pub size: usize,
    /// The steps that it took.
    pub steps: u64,
    /// How many objects were thrown.
    pub throws: u64,
    /// How many bytes it wrote.
    pub output: usize,
    /// How many verdicts there are: one for each of its files.
    pub verdicts: usize,
    /// `enum jvhost_end`.
    pub end: u32,
}

/// A verdict on a file: `jvhost_verdict_t`.
#[repr(C)]
#[derive(Clone, Copy)]
pub struct ToldVerdict {
    /// `enum jvhost_verdict_kind`.
    pub kind: u32,
    /// Under `Verify` the method's place in the file, else 0.
    pub method: u32,
    /// Under `Verify` the offset in its code, else 0.
    pub offset: u32,
    /// Under `Verify` the rule, the first at 1, else 0.
    pub rule: u32,
}

/// Where the last object was thrown: `jvhost_place_t`.
#[repr(C)]
#[derive(Clone, Copy)]
pub struct ToldPlace {
    /// The bytes of this struct.
    pub size: usize,
    /// How many bytes the class's name has.
    pub class: usize,
    /// How many bytes the method's name has.
    pub method: usize,
    /// How many bytes its descriptor has.
    pub descriptor: usize,
    /// The offset of the instruction in its code, in bytes.
    pub offset: u32,
}

/// What is wrong with files that are no library: `jvhost_library_fault`.
#[repr(C)]
#[derive(Clone, Copy)]
pub struct ToldFault {
    /// The bytes of this struct.
    pub size: usize,
    /// The place of the file that has it, the first at 0; 0 where none has.
    pub file: usize,
    /// `enum jvhost_library_fault_kind`.
    pub kind: u32,
}

/// What is told of no guest.
pub(crate) const UNSEEN: Seen = Seen {
    size: SEEN_SIZE,
    steps: 0,
    throws: 0,
    output: 0,
    verdicts: 0,
    end: 0,
};

/// What is told of no place.
pub(crate) const NOWHERE: ToldPlace = ToldPlace {
    size: PLACE_SIZE,
    class: 0,
    method: 0,
    descriptor: 0,
    offset: 0,
};

/// What is told of an accepted file.
pub(crate) const ACCEPTED: ToldVerdict = ToldVerdict {
    kind: 0,
    method: 0,
    offset: 0,
    rule: 0,
};

/// The files, main class and input of a guest that stands on the system's files, and a library with them.
pub(crate) fn files_of<'a>(system: &'a SystemFiles, guest: Guest<'a>) -> GuestFiles<'a>
    ensures { guest_of result ≡ files_told system.now guest.entry }
{
    GuestFiles {
        system,
        files: guest.files,
        main: guest.main,
        input: guest.input,
    }
}

/// The budget of a guest.
pub(crate) fn budget_of(guest: &Guest<'_>) -> Budget
    ensures { budget_of result ≡ budget_told guest.now }
{
    Budget {
        cells: guest.cells,
        words: guest.words,
        output: guest.output,
    }
}

/// What a guest shows, in numbers.
pub(crate) fn seen_of(shown: &Observation<'_>) -> Seen
    ensures { AreNumbers result (observed_of shown.now) }
{
    let end = match shown.end {
        GuestEnd::Running => 0,
        GuestEnd::Returned => 1,
        GuestEnd::Threw(_) => 2,
        GuestEnd::NoMain => 3,
    };
    Seen {
        size: SEEN_SIZE,
        steps: shown.steps,
        throws: shown.throws,
        output: shown.output.len(),
        verdicts: shown.verdicts.len(),
        end,
    }
}

/// A place as it is told.
pub(crate) fn told_place(place: ThrowPlace<'_>) -> ToldPlace
    ensures { IsPlaceTold result (seen_place place.entry) }
{
    ToldPlace {
        size: PLACE_SIZE,
        class: place.class.len(),
        method: place.method.len(),
        descriptor: place.descriptor.len(),
        offset: place.offset,
    }
}

fn reason_number(reason: LoadVerdict) -> u32
    ensures { result ≡ reason_number reason }
{
    match reason {
        LoadVerdict::Version => 2,
        LoadVerdict::Format => 3,
        LoadVerdict::Unsupported => 4,
        LoadVerdict::Reserved => 5,
        LoadVerdict::Duplicate => 6,
        LoadVerdict::Circular => 7,
        LoadVerdict::NoSuper => 8,
        LoadVerdict::WrongKind => 9,
        LoadVerdict::NoAccess => 10,
        LoadVerdict::FinalBroken => 11,
    }
}

fn rule_number(rule: VerifyRule) -> u32
    ensures { result ≡ rule_number rule }
{
    match rule {
        VerifyRule::Code => 1,
        VerifyRule::HandlerTable => 2,
        VerifyRule::MapFrames => 3,
        VerifyRule::Merge => 4,
        VerifyRule::CoveredHandler => 5,
        VerifyRule::Instruction => 6,
        VerifyRule::BranchTarget => 7,
        VerifyRule::EndOfCode => 8,
    }
}

fn told_fault(fault: VerifyFault) -> ToldVerdict
    ensures { result ≡ told_verdict (Verdict.Verify fault) }
{
    ToldVerdict {
        kind: 1,
        method: u32::from(fault.method),
        offset: fault.offset,
        rule: rule_number(fault.rule),
    }
}

/// A verdict as it is told.
pub(crate) fn told_verdict(verdict: Verdict) -> ToldVerdict
    ensures { result ≡ told_verdict verdict }
{
    match verdict {
        Verdict::Accepted => ACCEPTED,
        Verdict::Verify(fault) => told_fault(fault),
        Verdict::Refused(reason) => ToldVerdict {
            kind: reason_number(reason),
            method: 0,
            offset: 0,
            rule: 0,
        },
    }
}

/// A fault of a library as it is told.
pub(crate) fn told_library_fault(fault: LibraryFault) -> ToldFault
    ensures { IsFaultTold result fault }
{
    let (kind, file) = match fault {
        LibraryFault::Version(place) => (0, place),
        LibraryFault::Format(place) => (1, place),
        LibraryFault::Unsupported(place) => (2, place),
        LibraryFault::Reserved(place) => (3, place),
        LibraryFault::Duplicate(place) => (4, place),
        LibraryFault::Main(place) => (5, place),
        LibraryFault::Header(place) => (6, place),
        LibraryFault::Initializer(place) => (7, place),
        LibraryFault::AboveArrays(place) => (8, place),
        LibraryFault::NoString => (9, 0),
        LibraryFault::NoComparable => (10, 0),
        LibraryFault::NoCharSequence => (11, 0),
        LibraryFault::OutOfMemory => (12, 0),
    };
    ToldFault {
        size: FAULT_SIZE,
        file,
        kind,
    }
}
