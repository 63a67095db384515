ghost use Rattle.std.specs.Prelude.{◌≡◌, ◌*◌, ◌<◌, ◌↔◌, ℕ, ℤ, pos, List, [], length, map, replicate, IsTrue, IfOk, OnOk, unwrap_or, if◌then◌else◌};
ghost use Rattle.std.specs.List.{flat_map};
ghost use Rattle.uts_geom.specs.Spans.{row_indexes};
ghost use Rattle.uts_geom.specs.declared.index.Index.{Index};
ghost use Rattle.problem_types.specs.Lists.{centring_of};
ghost use Rattle.problem_types.specs.Regions.{indexes_of, spaces_of};
ghost use Rattle.uts_model.specs.Spaces.{IsSpaceOn};
ghost use Rattle.uts_model.specs.WholeField.{nothing, unset};
ghost use Rattle.whole_fields.specs.Stored.{IsWarehouseOf, field_place, state_of, stored_field, with_field, with_reduction};
ghost use Rattle.whole_fields.specs.Shapes.{IsShapesOf, shape_of};
ghost use Rattle.whole_fields.specs.Views.{number_in};

use crate::NoMemory;
use crate::shapes::{Shape, Shapes};
use crate::views::FieldView;
use sqlite_items::Items;
use std::alloc::Global;
use task_check::{Checked, bounds};
use uts_geom::{indexes_stand_once, spans_hold_their_indexes};
use uts_model::space_on;

/// The fields and the reductions of a problem at a moment of its run. A field has a number for each index of its index space, x
/// fastest, then y, then z.
#[derive(Debug, Drop)]
pub struct Warehouse {
    /// Whether it stands before the first step, where every number is 0.
    pub(crate) is_before: bool,
    /// The fields that were put: by name, then by material, then by level.
    pub(crate) fields: Items<Option<Items<i64>>>,
    /// The reductions, by name.
    pub(crate) reductions: Items<i64>,
}

/// A place for each of so many fields, none of which was put.
fn no_fields(alloc: Global, count: usize) -> Result<Items<Option<Items<i64>>>, NoMemory>
    ensures { IfOk result (λ fields. fields ≡ replicate count None) }
{
    let mut fields = Items::new(alloc);
    for _place in 0..count {
        fields.push(None)?;
    }
    Ok(fields)
}

/// A 0 for each of so many reductions.
fn zeros(alloc: Global, count: usize) -> Result<Items<i64>, NoMemory>
    ensures { IfOk result (λ numbers. numbers ≡ replicate count (pos 0)) }
{
    Ok(Items::from_vec(vec![in alloc; 0; count]?))
}

/// How many fields a problem has: one for each name, material and level.
fn field_count(c: &Checked) -> usize
    ensures { result ≡ length c.now.names * c.now.materials.value * length c.now.levels }
{
    bounds(c);
    let p = c.problem();
    p.names.len() * p.materials.value as usize * p.levels.len()
}

/// Where the field of a name, a material and a level stands.
fn place_of(c: &Checked, name: u32, material: u32, level: usize) -> usize
    requires name { name < length c.now.names }
    requires material { material < c.now.materials.value }
    requires level { level < length c.now.levels }
    ensures place { result ≡ field_place c.now name material level }
    ensures within { result < length c.now.names * c.now.materials.value * length c.now.levels }
{
    bounds(c);
    let p = c.problem();
    let materials = p.materials.value as usize;
    (name as usize * materials + material as usize) * p.levels.len() + level
}

/// Whether the problem has the field of a name, a material and a level.
fn has_field(c: &Checked, name: u32, material: u32, level: usize) -> bool
    ensures { IsTrue result ↔ ((name < length c.now.names) × (material < c.now.materials.value) × (level < length c.now.levels)) }
{
    let p = c.problem();
    (name as usize) < p.names.len()
        && u64::from(material) < p.materials.value
        && level < p.levels.len()
}

impl Warehouse {
    /// A warehouse with no fields, and with 0 for each reduction.
    fn empty(alloc: Global, c: &Checked, is_before: bool) -> Result<Warehouse, NoMemory>
        ensures warehouse { IfOk result (IsWarehouseOf c.now) }
        ensures state { IfOk result (λ w. state_of c.now w ≡ (if is_before then nothing else unset c.now)) }
    {
        let fields = no_fields(alloc, field_count(c))?;
        let reductions = zeros(alloc, c.problem().names.len())?;
        Ok(Warehouse {
            is_before,
            fields,
            reductions,
        })
    }

    /// The warehouse before the first step: every number is 0.
    pub fn nothing(alloc: Global, c: &Checked) -> Result<Warehouse, NoMemory>
        ensures warehouse { IfOk result (IsWarehouseOf c.now) }
        ensures state { IfOk result (λ w. state_of c.now w ≡ nothing) }
    {
        Warehouse::empty(alloc, c, true)
    }

    /// The warehouse before the first task of a step: each variable has its outside number everywhere, and each reduction is 0.
    pub fn unset(alloc: Global, c: &Checked) -> Result<Warehouse, NoMemory>
        ensures warehouse { IfOk result (IsWarehouseOf c.now) }
        ensures state { IfOk result (λ w. state_of c.now w ≡ unset c.now) }
    {
        Warehouse::empty(alloc, c, false)
    }

    /// Puts a whole field of a variable: its numbers at the indexes of its index space, x fastest, then y, then z.
    pub fn put(&mut self, c: &Checked, name: u32, material: u32, level: u32, numbers: Items<i64>)
        requires warehouse { IsWarehouseOf c.now self.old }
        requires name { name < length c.now.names }
        requires material { material < c.now.materials.value }
        requires level { level < length c.now.levels }
        requires full { length numbers ≡ length (indexes_of c.now level (centring_of c.now name)) }
        ensures warehouse { IsWarehouseOf c.now self.new }
        ensures before { self.new.is_before ≡ self.old.is_before }
        ensures state { (f : Index → ℤ) → numbers ≡ map f (indexes_of c.now level (centring_of c.now name))
            → state_of c.now self.new ≡ with_field c.now (state_of c.now self.old) name material level f }
    {
        spans_hold_their_indexes();
        indexes_stand_once();
        bounds(c);
        self.fields
            .set(place_of(c, name, material, level as usize), Some(numbers));
    }

    /// Gives a reduction another number.
    pub fn set_reduction(&mut self, c: &Checked, name: u32, number: i64)
        requires warehouse { IsWarehouseOf c.now self.old }
        requires name { name < length c.now.names }
        ensures warehouse { IsWarehouseOf c.now self.new }
        ensures before { self.new.is_before ≡ self.old.is_before }
        ensures state { state_of c.now self.new ≡ with_reduction (state_of c.now self.old) name number }
    {
        self.reductions.set(name as usize, number);
    }

    /// The number of a reduction.
    pub fn number(&self, c: &Checked, name: u32) -> i64
        ensures { result ≡ (state_of c.now self.now).reduction name }
    {
        match self.reductions.get(name as usize) {
            Some(number) => *number,
            None => 0,
        }
    }
    /// The numbers of a field, none where it has not been put.
    fn stored(&self, c: &Checked, name: u32, material: u32, level: usize) -> &[i64]
        requires { IsWarehouseOf c.now self.now }
        ensures { result.now ≡ unwrap_or (stored_field c.now self.now name material level) [] }
    {
        if !has_field(c, name, material, level) {
            return &[];
        }
        match &self.fields.as_slice()[place_of(c, name, material, level)] {
            Some(numbers) => numbers.as_slice(),
            None => &[],
        }
    }

    /// The number of a variable outside its index space, and wherever none has been put.
    fn blank(&self, shape: Shape) -> i64
        ensures { result ≡ (if self.now.is_before then pos 0 else shape.outside) }
    {
        if self.is_before { 0 } else { shape.outside }
    }

    /// A field on a level, which need not be one that the problem has.
    pub(crate) fn view(
        &self,
        c: &Checked,
        shape: Shape,
        name: u32,
        material: u32,
        level: usize,
    ) -> FieldView<'_>
        requires warehouse { IsWarehouseOf c.now self.now }
        requires shape { shape ≡ shape_of c.now name }
        ensures space { IsSpaceOn c.now level (centring_of c.now name) result.space }
        ensures numbers { (i : Index) → number_in result.space result.numbers.now result.blank i ≡ (state_of c.now self.now).field name material level i }
    {
        spans_hold_their_indexes();
        indexes_stand_once();
        FieldView {
            space: space_on(c, level, shape.centring),
            numbers: self.stored(c, name, material, level),
            blank: self.blank(shape),
        }
    }

    /// Replaces `out` by the numbers of a field along the row at y and z, by ascending x: as many as its index space has there, none where
    /// the problem has no such level.
    pub fn copy_row(
        &self,
        c: &Checked,
        shapes: &Shapes,
        name: u32,
        material: u32,
        level: u32,
        y: i64,
        z: i64,
        out: &mut Vec<i64>,
    ) -> Result<(), NoMemory>
        requires warehouse { IsWarehouseOf c.now self.now }
        requires shapes { IsShapesOf c.now shapes.now }
        ensures { OnOk result (out.new.items ≡ flat_map (λ s. map ((state_of c.now self.now).field name material level) (row_indexes s y z))
            (spaces_of c.now level (centring_of c.now name))) }
    {
        let field = self.view(c, shapes.shape(name), name, material, level as usize);
        field.copy_row(y, z, out)
    }
}
