//! The problems of the tests.

/// `u` in two patches, and then from its neighbours, by one layer of ghost cells.
pub(crate) const GHOST_CELLS: &str =
    "problem 1\nsteps 2\ndump 1\nghost 1\nmaterials 1\nlevel ratio 1\nbox 0 0 0 4 1 1\npatch 0 0 0 2 1 1\npatch 2 0 0 4 1 1\nvar u cell outside 0\ninit\ntask start levels 0 materials 0\ncomputes u = x * 10\ntimestep\ntask shift levels 0 materials 0\nrequires old u cells 1\ncomputes u = old.u[-1,0,0] + old.u[1,0,0]\nkeep u\nend\n";

/// `u` is read before and after it is modified.
pub(crate) const MODIFY: &str =
    "problem 1\nsteps 1\ndump 1\nghost 1\nmaterials 1\nlevel ratio 1\nbox 0 0 0 4 1 1\npatch 0 0 0 2 1 1\npatch 2 0 0 4 1 1\nvar u cell outside 0\nvar v cell outside 0\nvar w cell outside 0\ninit\ntask a levels 0 materials 0\ncomputes u = x\ntask b levels 0 materials 0\nrequires new u cells 1\ncomputes v = new.u[1,0,0]\ntask c levels 0 materials 0\nrequires new u none\nmodifies u = new.u[0,0,0] + 100\ntask d levels 0 materials 0\nrequires new u cells 1\ncomputes w = new.u[1,0,0]\ntimestep\ntask e levels 0 materials 0\ncomputes u = 0\ncomputes v = 0\ncomputes w = 0\nkeep u\nkeep v\nkeep w\nend\n";

/// `u` on the finer level, added up on the coarser one.
pub(crate) const FINE_SUMS: &str =
    "problem 1\nsteps 1\ndump 1\nghost 0\nmaterials 1\nlevel ratio 1\nbox 0 0 0 2 1 1\npatch 0 0 0 2 1 1\nlevel ratio 2\nbox 0 0 0 2 2 2\npatch 0 0 0 2 2 2\nvar u cell outside 0\nvar v cell outside 0\nvar w cell outside 0\ninit\ntask a levels 1 materials 0\ncomputes u = 1\ntask b levels 0 materials 0\ncomputes u = 7\ntask c levels 0 materials 0\nrequires new fine u\ncomputes v = new.fine_sum.u\ncomputes w = new.fine_count.u\ntimestep\ntask e levels 0 materials 0\ncomputes u = 0\ncomputes v = 0\ncomputes w = 0\nkeep u\nkeep v\nkeep w\nend\n";

/// The least number over two levels and two materials, and then from that of the step before.
pub(crate) const REDUCTIONS: &str =
    "problem 1\nsteps 1\ndump 1\nghost 0\nmaterials 2\nlevel ratio 1\nbox 0 0 0 2 1 1\npatch 0 0 0 2 1 1\nlevel ratio 2\nbox 0 0 0 2 2 2\npatch 0 0 0 2 2 2\nvar u cell outside 0\nreduction low min\ninit\ntask a levels 0 1 materials 0 1\ncomputes u = x + 10 * material + 100 * level\ntask b levels 0 1 materials 0 1\nrequires new u none\nreduces low cell = 5 - new.u[0,0,0]\ntimestep\ntask c levels 0 materials 0\nrequires old low\ncomputes u = old.low\nreduces low cell = x\nkeep u\nkeep low\nend\n";

/// Each of two patches takes the sum of the step before for its own part.
pub(crate) const DOUBLING: &str =
    "problem 1\nsteps 3\ndump 1\nghost 0\nmaterials 1\nlevel ratio 1\nbox 0 0 0 2 1 1\npatch 0 0 0 1 1 1\npatch 1 0 0 2 1 1\nvar u cell outside 0\nreduction s sum\ninit\ntask a levels 0 materials 0\ncomputes u = 1\nreduces s cell = 1\ntimestep\ntask b levels 0 materials 0\nrequires old s\ncomputes u = old.s\nreduces s cell = old.s\nkeep u\nkeep s\nend\n";

/// What a task sees of a variable around the middle one of three patches, with layers of cells, of nodes and without any.
pub(crate) const WINDOWS: &str =
    "problem 1\nsteps 1\ndump 1\nghost 2\nmaterials 1\nlevel ratio 1\nbox 0 0 0 12 1 1\npatch 0 0 0 4 1 1\npatch 4 0 0 8 1 1\npatch 8 0 0 12 1 1\nvar c cell outside 0\nvar m node outside 0\nvar n node outside 0\nvar k node outside 0\ninit\ntask a levels 0 materials 0\ncomputes c = 1\ncomputes m = 1\ncomputes n = 1\ncomputes k = 1\ntimestep\ntask b levels 0 materials 0\nrequires old c cells 2\nrequires old m cells 2\nrequires old n nodes 2\nrequires old k none\ncomputes c = 1\ncomputes m = 1\ncomputes n = 1\ncomputes k = 1\nkeep c\nend\n";
