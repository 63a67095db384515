ghost use Rattle.std.specs.Prelude.{◌≡◌};
ghost use Rattle.uts_geom.specs.Centrings.{is_point_like};

/// An axis of the grid.
#[derive(Clone, Copy, Debug, PartialEq, Eq)]
pub enum Axis {
    X,
    Y,
    Z,
}

/// Where the numbers of a variable stand: at cells, at nodes, or at the faces across an axis.
#[derive(Clone, Copy, Debug, PartialEq, Eq)]
pub enum Centring {
    Cell,
    Node,
    FaceX,
    FaceY,
    FaceZ,
}

/// Whether the centring is point-like on the axis. Else it is interval-like there.
pub fn point_like(c: Centring, a: Axis) -> bool
    ensures { result ≡ is_point_like c a }
{
    match (c, a) {
        (Centring::Cell, _) => false,
        (Centring::Node, _) => true,
        (Centring::FaceX, a) => a == Axis::X,
        (Centring::FaceY, a) => a == Axis::Y,
        (Centring::FaceZ, a) => a == Axis::Z,
    }
}
