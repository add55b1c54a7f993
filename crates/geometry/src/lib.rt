// What a geometry is, and what a quadrangle is: the two interfaces, with what they promise.
// A geometry has points and lines, and an edge for each point with a line through it.
#![tactic(auto)]

ghost use Rattle.std.specs.Prelude.{◌≡◌};
ghost use Rattle.geometry.specs.Incidence.{OnePoint};
ghost use Rattle.geometry.specs.Laws.{GeometryLaws};
ghost use Rattle.geometry.specs.Limits.{fits as fits_limits, standing as standing_of};
ghost use Rattle.geometry.specs.Model.{GeometryModel, edge_at, edges as edges_of, point_of};
ghost use Rattle.geometry.specs.Projection.{Joined, OnePair};
ghost use Rattle.refusal.specs.Given.{GivenOrRefused};

use field::is_listed;
use refusal::Refusal;

// The largest order of the field of a geometry.
const MAX_ORDER: usize = 16;

// The most edges of a geometry.
const MAX_EDGES: usize = 5000;

// Points, lines, edges and seats are numbered from 0. The edges follow the lines: edge l * line_degree + j is seat j of line l.
pub trait Geometry {
    ghost model: { Self → GeometryModel };

    // The order of the field of its coordinates.
    fn order(&self) -> usize
        ensures { result ≡ (model self.now).order };

    fn points(&self) -> usize
        ensures { result ≡ (model self.now).points };

    fn lines(&self) -> usize
        ensures { result ≡ (model self.now).lines };

    // How many lines go through each point.
    fn point_degree(&self) -> usize
        ensures { result ≡ (model self.now).point_degree };

    // How many points lie on each line.
    fn line_degree(&self) -> usize
        ensures { result ≡ (model self.now).line_degree };

    fn edges(&self) -> usize
        ensures { result ≡ edges_of (model self.now) };

    // The edge at a seat of a point; absent if the point or the seat is beyond the last.
    fn edge_at(&self, point: usize, seat: usize) -> Option<usize>
        ensures { result ≡ edge_at (model self.now) point seat };

    // The point of an edge, and the edge's seat there; absent if the edge is beyond the last.
    fn point_of(&self, edge: usize) -> Option<(usize, usize)>
        ensures { result ≡ point_of (model self.now) edge };

    ghost lawful: { (s : Self) → GeometryLaws (model s) };
}

// A geometry in which at most one point of a line is joined to a point off that line, and by one line.
pub trait Quadrangle: Geometry {
    // The point of the line that is joined to the point, and the joining line.
    // Absent if there is no such pair, if the point is on the line, or if one of them is beyond the last.
    fn project(&self, line: usize, point: usize) -> Option<(usize, usize)>
        ensures { Joined (Self.Geometry.model self.now) line point result };

    // For a line and a point off it there is at most one such pair.
    ghost alone: { (s : Self) → OnePair (Self.Geometry.model s) };
}

// Two different lines of any geometry have at most one point in common.
pub fn lines_meet_once<G: Geometry>(geometry: &G)
    ensures { OnePoint (G.Geometry.model geometry.now) }
{}

// Whether the order of its field is at most 16, and there are at most 5,000 edges.
pub fn fits<G: Geometry>(geometry: &G) -> bool
    ensures { result ≡ fits_limits (G.Geometry.model geometry.now) }
{
    geometry.order() <= MAX_ORDER && geometry.edges() <= MAX_EDGES
}

// What a call refuses the geometry with, if anything: number 1 if the order of its field is not listed, then number 2 if it does not fit.
pub fn standing<G: Geometry>(geometry: &G) -> Result<(), Refusal>
    ensures { result ≡ standing_of (G.Geometry.model geometry.now) }
{
    if !is_listed(geometry.order()) {
        return Err(Refusal::FieldOrder);
    }
    if !fits(geometry) {
        return Err(Refusal::GeometrySize);
    }
    Ok(())
}

// Gives the geometry back, or what `standing` refuses it with. Every constructor that can refuse ends in this.
pub fn checked<G: Geometry + Drop>(geometry: G) -> Result<G, Refusal>
    ensures { GivenOrRefused (standing_of (G.Geometry.model geometry)) (λ g. g ≡ geometry) result }
{
    standing(&geometry)?;
    Ok(geometry)
}
