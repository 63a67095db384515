use uts_geom::Span;

/// Where a field lies: a material, a level and the index space of one of its boxes.
#[derive(Clone, Copy)]
pub(crate) struct Place {
    pub(crate) material: u32,
    pub(crate) level: u32,
    pub(crate) span: Span,
}
