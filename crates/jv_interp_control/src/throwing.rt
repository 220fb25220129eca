//! Throws (JVMS 2.10): an object goes up the frames until a handler takes it.

ghost use Rattle.std.specs.Prelude.{◌≡◌, ◌+◌, ◌-◌, ◌^◌, ◌<◌, ◌≤◌, length, min, true, false, IfOk, IsOk, IsTrue, OnOk, OnErr};
ghost use Rattle.jv_link_cache.specs.Linked.{IsLinked};
ghost use Rattle.jv_interp_control.specs.Inside.Walking.{CanReplace, Replaces, IsKnown, StaysUnlessMade, CanWalk, Lands};
ghost use Rattle.jv_interp_members.specs.Methods.{AreMethods};

use crate::classes::is_at_or_below;
use crate::control::PlaceRecord;
use crate::exceptions::make_exception;
use crate::handlers::handler_of;
use crate::places::place_behind;
use jv_interp_heap::{ERROR, IN_INITIALIZER, system_has_numbers};
use jv_interp_held::Held;
use jv_interp_members::Methods;
use jv_interp_words::FrameRecord;
use jv_link_cache::Linked;
use jv_loader::Classes;
use jv_store::{OutOfMemory, Store};

/// What is thrown: the address of the object, the number of its class, how many throws there were so far, up to 2^64 - 1 (own), and where.
#[derive(Clone, Copy)]
pub(crate) struct Thrown {
    pub(crate) address: u32,
    pub(crate) class: u32,
    pub(crate) throws: u64,
    pub(crate) place: Option<PlaceRecord>,
    /// Whether it is an ExceptionInInitializerError that was made on the way.
    pub(crate) made: bool,
}

/// A throw more.
pub(crate) fn once_more(throws: u64) -> u64
    ensures { result ≡ min (throws + 1) (2 ^ 64 - 1) }
{
    throws.saturating_add(1)
}

/// What is thrown behind the initialization of a class, which a throw passed with so many frames: an ExceptionInInitializerError in place
/// of what is no java/lang/Error (JVMS 5.5). It is an Error itself, so one is made at most; where its cells are not left the
/// OutOfMemoryError object of the start takes its place (own).
///
/// # Errors
///
/// Where the host had no memory for it; all is then as it was.
pub(crate) fn replaced<S: Store>(
    classes: &Classes<'_>,
    linked: &Linked<'_>,
    records: &[FrameRecord],
    passed: usize,
    held: &mut Held,
    store: &mut S,
    thrown: Thrown,
) -> Result<Thrown, OutOfMemory>
    requires can { CanReplace classes.now.world records.now passed thrown held.old (S.content store.old) }
    requires linked { IsLinked classes.now.world linked.now }
    requires passed { passed ≤ length records.now }
    requires count { length records.now < 4294967296 }
    requires known { IsKnown thrown }
    requires few { held.old.cells < 2147483648 }
    requires room { held.old.cells ≤ S.room_left store.old }
    ensures replaced { IfOk result
        (λ now. Replaces classes.now.world records.now passed thrown held.old (S.content store.old) now held.new (S.content store.new)) }
    ensures known { IfOk result IsKnown }
    ensures stays { IfOk result (λ now. StaysUnlessMade thrown now held.old (S.content store.old) held.new (S.content store.new)) }
    ensures held { held.new ≡ record held.old { cells = held.new.cells } }
    ensures fewer { held.new.cells ≤ held.old.cells }
    ensures room { OnOk result (S.room_left store.old + held.new.cells ≡ S.room_left store.new + held.old.cells) }
    ensures refused { OnErr result (held.new ≡ held.old) }
    ensures refused_content { OnErr result (S.content store.new ≡ S.content store.old) }
    ensures refused_room { OnErr result (S.room_left store.new ≡ S.room_left store.old) }
    ensures not_made { OnErr result (thrown.made ≡ false) }
    ensures sure { IsTrue S.SURE → IsOk result }
{
    system_has_numbers();
    if thrown.made || is_at_or_below(classes.table(), thrown.class as usize, ERROR as usize) {
        return Ok(thrown);
    }
    let words = linked.object_words(IN_INITIALIZER as usize);
    let throws = once_more(thrown.throws);
    let place = place_behind(records, passed).or(thrown.place);
    let Some(address) = make_exception(held, store, IN_INITIALIZER, words)? else {
        let address = held.out_of_memory;
        let class = store.get(address, 0);
        return Ok(Thrown {
            address,
            class,
            throws,
            place,
            made: false,
        });
    };
    Ok(Thrown {
        address,
        class: IN_INITIALIZER,
        throws,
        place,
        made: true,
    })
}

/// How far a throw comes: past so many frames, and to a handler that begins at an offset of the next one's code, or to none where no
/// frame is left; and what is then thrown.
#[derive(Clone, Copy)]
pub(crate) struct Landing {
    pub(crate) passed: usize,
    pub(crate) handler: Option<u16>,
    pub(crate) thrown: Thrown,
}

/// How far a throw comes that goes up the frames with these records. It changes none of them.
///
/// # Errors
///
/// Where the host had no memory for an exception that is thrown in place of another one; all is then as it was.
pub(crate) fn walk<S: Store>(
    classes: &Classes<'_>,
    linked: &Linked<'_>,
    methods: &Methods<'_>,
    records: &[FrameRecord],
    held: &mut Held,
    store: &mut S,
    thrown: Thrown,
) -> Result<Landing, OutOfMemory>
    requires can { CanWalk classes.now.world records.now thrown held.old (S.content store.old) }
    requires linked { IsLinked classes.now.world linked.now }
    requires methods { AreMethods classes.now.world methods.now }
    requires count { length records.now < 4294967296 }
    requires not_made { thrown.made ≡ false }
    requires few { held.old.cells < 2147483648 }
    requires room { held.old.cells ≤ S.room_left store.old }
    ensures lands { IfOk result
        (λ landing. Lands classes.now.world records.now thrown held.old (S.content store.old) landing held.new (S.content store.new)) }
    ensures held { held.new ≡ record held.old { cells = held.new.cells } }
    ensures fewer { held.new.cells ≤ held.old.cells }
    ensures room { OnOk result (S.room_left store.old + held.new.cells ≡ S.room_left store.new + held.old.cells) }
    ensures refused { OnErr result (held.new ≡ held.old) }
    ensures refused_content { OnErr result (S.content store.new ≡ S.content store.old) }
    ensures refused_room { OnErr result (S.room_left store.new ≡ S.room_left store.old) }
    ensures sure { IsTrue S.SURE → IsOk result }
{
    let mut now = thrown;
    for passed in 0..records.len() {
        match records[records.len() - 1 - passed] {
            FrameRecord::Runs(own) => {
                if let Some(pc) = handler_of(classes, linked, methods, own, now.class) {
                    return Ok(Landing {
                        passed,
                        handler: Some(pc),
                        thrown: now,
                    });
                }
            }
            FrameRecord::Initializes(_own) => {
                now = replaced(classes, linked, records, passed + 1, held, store, now)?;
            }
        }
    }
    Ok(Landing {
        passed: records.len(),
        handler: None,
        thrown: now,
    })
}
