// Whether a point of a geometry lies on a line.
#![tactic(auto)]

ghost use Rattle.geometry.specs.Incidence.{On};
ghost use Rattle.geometry.specs.Model.{edge_at, line_of};
ghost use Rattle.std.specs.Prelude.{◌≡◌, ◌↔◌, IsTrue, option_map};

use geometry::Geometry;

// The line of the edge at a seat of a point; absent where that edge is.
fn line_at<G: Geometry>(geometry: &G, point: usize, seat: usize) -> Option<usize>
    ensures { result ≡ option_map (line_of (G.Geometry.model geometry.now)) (edge_at (G.Geometry.model geometry.now) point seat) }
{
    let edge = geometry.edge_at(point, seat)?;
    Some(edge / geometry.line_degree())
}

// Whether the point lies on the line: whether one of its edges does. A point beyond the last has none, and no seat of it is asked for.
pub fn lies_on<G: Geometry>(geometry: &G, point: usize, line: usize) -> bool
    ensures { IsTrue result ↔ On (G.Geometry.model geometry.now) point line }
{
    if point >= geometry.points() {
        return false;
    }
    (0..geometry.point_degree()).any(|seat| line_at(geometry, point, seat) == Some(line))
}
