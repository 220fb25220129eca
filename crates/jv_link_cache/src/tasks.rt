//! What the initialization of each class does itself (JVMS 5.5): the fields that it sets to constants, and its `<clinit>`.

ghost use Rattle.std.specs.Prelude.{◌≡◌, ◌++◌, ◌∷◌, [], ◌<◌, Some, IfOk, OnOk, is_some, length, slice_get, if◌then◌else◌};
ghost use Rattle.std.specs.Option.{option_map};
ghost use Rattle.jv_class.specs.Class.{Field};
ghost use Rattle.jv_class.specs.Value.{IsValueNamed, value_number};
ghost use Rattle.jv_meaning_world.specs.World.{World};
ghost use Rattle.jv_meaning_world.specs.Numbers.{HoldsAtNumber};
ghost use Rattle.jv_link_cache.specs.Tasks.{seen_initial, value_at, settings_of, IsInitializer};
ghost use Rattle.jv_link_cache.specs.Inside.Tasks.{AreTasksOf, AreTasks};

use jv_class::ConstantValue;
use jv_link::class_at;
use jv_loader::{ClassTable, LoadedClass};
use jv_pool::Pool;
use std::alloc::{AllocError, Global};

/// The value with which a static field begins (JVMS 4.7.2): an int of 32 bits, also of a shorter type, a long, or the
/// text of a string.
#[derive(Clone, Copy)]
pub enum InitialValue<'a> {
    Int(i32),
    Long(i64),
    String(&'a [u8]),
}

/// The places of a class's fields that are set to constants, in the order of its file, and the place of its `<clinit>`.
#[derive(Drop)]
pub(crate) struct ClassTasks {
    pub(crate) settings: Vec<usize>,
    pub(crate) initializer: Option<usize>,
}

/// What a constant is.
fn value_in<'a>(pool: &Pool<'a>, value: ConstantValue) -> InitialValue<'a>
    requires { IsValueNamed pool.now value }
    ensures { value_at pool.now (value_number value) ≡ Some (seen_initial result) }
{
    match value {
        ConstantValue::Integer(index) => InitialValue::Int(pool.integer(index)),
        ConstantValue::Long(index) => InitialValue::Long(pool.long(index)),
        ConstantValue::String(index) => InitialValue::String(pool.string(index)),
    }
}

/// The value with which the field at a place of a class begins, where it has a constant (JVMS 4.7.2).
pub fn initial_value<'a>(class: &LoadedClass<'a>, member: usize) -> Option<InitialValue<'a>>
    ensures { (f : Field) → slice_get class.now.class.fields member ≡ Some f → option_map seen_initial result ≡ f.initial }
{
    let Some(file) = class.file() else {
        return None;
    };
    let Some(value) = file.constant_value(member) else {
        return None;
    };
    Some(value_in(file.pool(), value))
}

/// Whether the field at a place begins with a constant.
fn has_initial(class: &LoadedClass<'_>, member: usize) -> bool
    ensures { (f : Field) → slice_get class.now.class.fields member ≡ Some f → result ≡ is_some f.initial }
{
    initial_value(class, member).is_some()
}

/// Puts a place behind others, where a test says so.
fn push_if(places: &mut Vec<usize>, test: bool, place: usize) -> Result<(), AllocError>
    ensures { OnOk result (places.new.items ≡ (if test then places.old.items ++ place ∷ [] else places.old.items)) }
{
    if test {
        places.push(place)?;
    }
    Ok(())
}

/// The places of the fields of a class that begin with constants.
fn settings_in(alloc: Global, class: &LoadedClass<'_>) -> Result<Vec<usize>, AllocError>
    ensures { IfOk result (λ settings. settings.items ≡ settings_of class.now) }
{
    let mut settings = Vec::new(alloc);
    for member in 0..class.field_count() {
        push_if(&mut settings, has_initial(class, member), member)?;
    }
    Ok(settings)
}

/// The place of a class's `<clinit>`.
fn initializer_in(class: &LoadedClass<'_>) -> Option<usize>
    ensures { IsInitializer class.now result }
{
    class.method_named(b"<clinit>".as_slice(), b"()V".as_slice())
}

/// What the initialization of a class does itself.
fn tasks_of(alloc: Global, class: &LoadedClass<'_>) -> Result<ClassTasks, AllocError>
    ensures { IfOk result (λ row. AreTasksOf class.now row) }
{
    let settings = settings_in(alloc, class)?;
    let initializer = initializer_in(class);
    Ok(ClassTasks {
        settings,
        initializer,
    })
}

/// What the initialization of each class does itself.
pub(crate) fn all_tasks(
    alloc: Global,
    table: &ClassTable<'_>,
) -> Result<Vec<ClassTasks>, AllocError>
    ensures { IfOk result (λ rows. AreTasks table.now (length table.now) rows.items) }
{
    let mut rows = Vec::with_capacity(alloc, table.count())?;
    for number in 0..table.count() {
        rows.push(tasks_of(alloc, class_at(table, number))?)?;
    }
    Ok(rows)
}

/// The places of the fields of a class that begin with constants, of those of each.
pub(crate) fn settings_at(rows: &[ClassTasks], class: usize) -> &[usize]
    ensures { (world : World) → AreTasks world (length world) rows.now → HoldsAtNumber world class (λ l. result.now ≡ settings_of l) }
{
    if class < rows.len() {
        &rows[class].settings
    } else {
        &[]
    }
}

/// The place of the `<clinit>` of a class, of those of each.
pub(crate) fn initializer_at(rows: &[ClassTasks], class: usize) -> Option<usize>
    ensures { (world : World) → AreTasks world (length world) rows.now → HoldsAtNumber world class (λ l. IsInitializer l result) }
{
    if class < rows.len() {
        rows[class].initializer
    } else {
        None
    }
}
