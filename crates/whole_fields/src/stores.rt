//! What the reads of kernels see in two warehouses.
ghost use Rattle.std.specs.Prelude.{◌≡◌, ◌+◌, ◌-◌, ℕ, ℤ, pos, length, map};
ghost use Rattle.std.specs.Int.{int_gap};
ghost use Rattle.kernel_ast.specs.declared.expression.Store.{Store};
ghost use Rattle.kernel_rows.specs.Values.{indexes_on};
ghost use Rattle.problem_types.specs.Lists.{centring_of};
ghost use Rattle.problem_types.specs.Regions.{children_of, coarse_index, moved, offset_of, ratio_of};
ghost use Rattle.problem_types.specs.declared.problem.Problem.{Problem};
ghost use Rattle.reductions.specs.Folding.{all_combined};
ghost use Rattle.uts_geom.specs.declared.index.Index.{Index};
ghost use Rattle.uts_model.specs.Spaces.{IsSpaceOn};
ghost use Rattle.uts_model.specs.WholeField.{State, number_read, store_of};
ghost use Rattle.whole_fields.specs.Shapes.{IsShapesOf};
ghost use Rattle.whole_fields.specs.Stored.{IsWarehouseOf, state_of};
ghost use Rattle.whole_fields.specs.Views.{number_in};

use crate::coarse::{coarse, fill_coarse};
use crate::fine::FineFold;
use crate::shapes::Shapes;
use crate::views::{FieldView, ones};
use crate::warehouse::Warehouse;
use kernel_ast::{How, Read, Store};
use kernel_rows::{KernelRow, Reads};
use reductions::Fold;
use task_check::Checked;
use uts_model::ratio_on;

/// The two stores of kernels that run on a material and a level: what the step before left, and what the tasks before left.
#[derive(Drop)]
pub struct Stores<'a> {
    pub checked: &'a Checked,
    pub shapes: &'a Shapes,
    pub old: &'a Warehouse,
    pub new: &'a Warehouse,
    pub material: u32,
    pub level: u32,
    pub ghost shaped: { IsShapesOf checked.now shapes.now },
    pub ghost old_holds: { IsWarehouseOf checked.now old.now },
    pub ghost new_holds: { IsWarehouseOf checked.now new.now },
}

impl Stores<'_> {
    /// The warehouse of a store.
    fn warehouse(&self, store: Store) -> &Warehouse
        ensures holds { IsWarehouseOf self.now.checked.now result.now }
        ensures state { state_of self.now.checked.now result.now
            ≡ store_of (state_of self.now.checked.now self.now.old.now) (state_of self.now.checked.now self.now.new.now) store }
    {
        match store {
            Store::Old => self.old,
            Store::New => self.new,
        }
    }

    /// The field that a read reads, on a level.
    fn field(&self, read: &Read, level: usize) -> FieldView<'_>
        ensures space { IsSpaceOn self.now.checked.now level (centring_of self.now.checked.now read.now.name) result.space }
        ensures numbers { (i : Index) → number_in result.space result.numbers.now result.blank i
            ≡ (store_of (state_of self.now.checked.now self.now.old.now) (state_of self.now.checked.now self.now.new.now) read.now.store).field
            read.now.name self.now.material level i }
    {
        let shape = self.shapes.shape(read.name);
        let warehouse = self.warehouse(read.store);
        warehouse.view(self.checked, shape, read.name, self.material, level)
    }

    /// Fills `out` with the numbers of a read on the own level.
    fn fill_same(&self, read: &Read, row: KernelRow, out: &mut [i64])
        requires { length out.old ≡ int_gap row.low row.high }
        ensures { out.new ≡ map (λ i. (store_of (state_of self.now.checked.now self.now.old.now) (state_of self.now.checked.now self.now.new.now) read.now.store).field
            read.now.name self.now.material self.now.level (moved i (offset_of read.now.offset))) (indexes_on row) }
    {
        let field = self.field(read, self.level as usize);
        let along = field.moved_row(row.y, row.z, read.offset);
        along.fill_moved(row.low, read.offset[0], out);
    }

    /// Fills `out` with the numbers of a read on the next coarser level.
    fn fill_coarse(&self, read: &Read, row: KernelRow, out: &mut [i64])
        requires { length out.old ≡ int_gap row.low row.high }
        ensures { out.new ≡ map (λ i. (store_of (state_of self.now.checked.now self.now.old.now) (state_of self.now.checked.now self.now.new.now) read.now.store).field
            read.now.name self.now.material (self.now.level - 1) (moved (coarse_index (ratio_of self.now.checked.now self.now.level) i) (offset_of read.now.offset)))
            (indexes_on row) }
    {
        let ratio = ratio_on(self.checked, self.level as usize);
        let field = self.field(read, self.level.saturating_sub(1) as usize);
        let along = field.moved_row(coarse(row.y, ratio), coarse(row.z, ratio), read.offset);
        fill_coarse(&along, row, ratio, read.offset[0], out);
    }

    /// Fills `out` with a fold over the children on the next finer level.
    fn fill_fine(&self, fold: Fold, read: &Read, row: KernelRow, out: &mut [i64])
        requires { length out.old ≡ int_gap row.low row.high }
        ensures { out.new ≡ map (λ i. all_combined fold (map ((store_of (state_of self.now.checked.now self.now.old.now) (state_of self.now.checked.now self.now.new.now)
            read.now.store).field read.now.name self.now.material (self.now.level + 1))
            (children_of self.now.checked.now self.now.level (centring_of self.now.checked.now read.now.name) i))) (indexes_on row) }
    {
        let level = self.level as usize + 1;
        let fine = FineFold {
            fold,
            field: self.field(read, level),
            centring: self.shapes.shape(read.name).centring,
            ratio: ratio_on(self.checked, level),
        };
        fine.fill(row, out);
    }

    /// Fills `out` with the number of children on the next finer level: each counts 1 in a sum.
    fn fill_count(&self, read: &Read, row: KernelRow, out: &mut [i64])
        requires { length out.old ≡ int_gap row.low row.high }
        ensures { out.new ≡ map (λ i. pos (length (children_of self.now.checked.now self.now.level (centring_of self.now.checked.now read.now.name) i))) (indexes_on row) }
    {
        let level = self.level as usize + 1;
        let fine = FineFold {
            fold: Fold::Sum,
            field: ones(self.field(read, level).space),
            centring: self.shapes.shape(read.name).centring,
            ratio: ratio_on(self.checked, level),
        };
        fine.fill(row, out);
    }
}

impl Reads for Stores<'_> {
    ghost numbers = { λ s r i. number_read s.checked.now
        (λ level. (store_of (state_of s.checked.now s.old.now) (state_of s.checked.now s.new.now) r.store).field r.name s.material level) r s.level i r.how };

    ghost reductions = { λ s store name. (store_of (state_of s.checked.now s.old.now) (state_of s.checked.now s.new.now) store).reduction name };

    fn fill(&self, read: &Read, row: KernelRow, out: &mut [i64]) {
        match read.how {
            How::Same => self.fill_same(read, row, out),
            How::Coarse => self.fill_coarse(read, row, out),
            How::FineSum => self.fill_fine(Fold::Sum, read, row, out),
            How::FineMin => self.fill_fine(Fold::Min, read, row, out),
            How::FineMax => self.fill_fine(Fold::Max, read, row, out),
            How::FineCount => self.fill_count(read, row, out),
        }
    }

    fn number(&self, store: Store, name: u32) -> i64 {
        self.warehouse(store).number(self.checked, name)
    }
}
