use ghost_gather::Window;
use kernel_ast::{How, Store};
use uts_geom::Centring;

/// What a task sees of a variable around its patch: on its own level, on the next coarser one, or on the next finer one.
#[derive(Debug, Drop)]
pub struct Part {
    pub store: Store,
    /// `Same`, `Coarse` or `FineSum`, which stands for all fine forms.
    pub how: How,
    /// A place in the problem's names.
    pub name: u32,
    pub centring: Centring,
    /// Between the task's level and the part's: 2 or 4. It has no meaning on the task's own level.
    pub ratio: i64,
    pub window: Window,
}
