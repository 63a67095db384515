//! What a task gives, put into the warehouse.
ghost use Rattle.std.specs.Prelude.{◌≡◌, ◌<◌, List, map, length, All};
ghost use Rattle.whole_fields.specs.Stored.{IsWarehouseOf, state_of, with_field, with_reduction};
ghost use Rattle.plain_engine.specs.Changes.{FieldChange, IsFieldOf, written_of, with_fields, with_numbers};
ghost use Rattle.plain_engine.specs.declared.written.WrittenNumber.{WrittenNumber};

use crate::written::{WrittenField, WrittenNumber};
use sqlite_items::Items;
use task_check::Checked;
use whole_fields::Warehouse;

/// Puts one field.
fn put_field(c: &Checked, field: WrittenField, new: &mut Warehouse)
    requires warehouse { IsWarehouseOf c.now new.old }
    requires field { IsFieldOf c.now field }
    ensures warehouse { IsWarehouseOf c.now new.new }
    ensures state { (x : FieldChange) → field ≡ written_of c.now x
        → state_of c.now new.new ≡ with_field c.now (state_of c.now new.old) x.name x.material x.level x.number }
{
    let WrittenField {
        name,
        material,
        level,
        numbers,
    } = field;
    new.put(c, name, material, level, numbers);
}

/// Puts fields, the last one first.
pub(crate) fn put_fields(c: &Checked, fields: Items<WrittenField>, new: &mut Warehouse)
    requires warehouse { IsWarehouseOf c.now new.old }
    requires fields { All (IsFieldOf c.now) fields }
    ensures warehouse { IsWarehouseOf c.now new.new }
    ensures state { (changes : List FieldChange) → fields ≡ map (written_of c.now) changes
        → state_of c.now new.new ≡ with_fields c.now (state_of c.now new.old) changes }
{
    let mut rest = fields;
    while let Some(field) = rest.pop() {
        put_field(c, field, new);
    }
}

/// Puts the numbers of reductions, the last one first.
pub(crate) fn put_numbers(c: &Checked, numbers: Items<WrittenNumber>, new: &mut Warehouse)
    requires warehouse { IsWarehouseOf c.now new.old }
    requires numbers { All (λ (x : WrittenNumber). x.name < length c.now.names) numbers }
    ensures warehouse { IsWarehouseOf c.now new.new }
    ensures state { state_of c.now new.new ≡ with_numbers (state_of c.now new.old) numbers }
{
    let mut rest = numbers;
    while let Some(number) = rest.pop() {
        new.set_reduction(c, number.name, number.number);
    }
}
