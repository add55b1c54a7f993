// A geometry of any kind over a field of any listed order, chosen at run time: an enum over the kinds, which is a geometry itself.
#![tactic(auto)]

ghost use Rattle.std.specs.Prelude.{◌≡◌, IfOk};
ghost use Rattle.field.specs.Defined.{defined_field};
ghost use Rattle.geometry.specs.Limits.{standing as standing_of};
ghost use Rattle.refusal.specs.Given.{GivenOrRefused};
ghost use Rattle.any_field.specs.Orders.{order_of};
ghost use Rattle.any_geometry.specs.Kinds.{Projects, geometry_of, kind_of, kind_over};
ghost use Rattle.any_geometry.specs.Lawful.{geometry_lawful};

use any_field::AnyField;
use euclidean::EuclideanPlane;
use field::Field;
use geometry::{Geometry, Quadrangle, checked};
use projective::ProjectivePlane;
use quadrangle::AffineQuadrangle;
use refusal::Refusal;

// The kinds of geometry.
#[derive(Clone, Copy, PartialEq, Eq, Debug)]
pub enum Kind {
    Euclidean,
    Projective,
    Quadrangle,
}

#[derive(Drop)]
pub enum AnyGeometry {
    Euclidean(EuclideanPlane<AnyField>),
    Projective(ProjectivePlane<AnyField>),
    Quadrangle(AffineQuadrangle<AnyField>),
}

// What the geometry answers, whatever its kind.
macro_rules! ask {
    ($any:expr, $geometry:ident => $answer:expr) => {
        match $any {
            AnyGeometry::Euclidean($geometry) => $answer,
            AnyGeometry::Projective($geometry) => $answer,
            AnyGeometry::Quadrangle($geometry) => $answer,
        }
    };
}

impl AnyGeometry {
    // The geometry of a kind over a field, within the limits or not.
    pub fn over(kind: Kind, field: AnyField) -> AnyGeometry
        ensures meaning { geometry_of result ≡ kind_over kind (defined_field (order_of field)) }
        ensures same { kind_of result ≡ kind }
    {
        match kind {
            Kind::Euclidean => AnyGeometry::Euclidean(EuclideanPlane::over(field)),
            Kind::Projective => AnyGeometry::Projective(ProjectivePlane::over(field)),
            Kind::Quadrangle => AnyGeometry::Quadrangle(AffineQuadrangle::over(field)),
        }
    }

    // The point of the line joined to the point, and the joining line; always absent in a plane.
    pub fn project(&self, line: usize, point: usize) -> Option<(usize, usize)>
        ensures { Projects (kind_of self.now) (geometry_of self.now) line point result }
    {
        match self {
            AnyGeometry::Quadrangle(g) => g.project(line, point),
            _ => None,
        }
    }
}

impl Geometry for AnyGeometry {
    ghost model = { geometry_of };

    ghost lawful = { geometry_lawful };

    fn order(&self) -> usize {
        ask!(self, geometry => geometry.order())
    }

    fn points(&self) -> usize {
        ask!(self, geometry => geometry.points())
    }

    fn lines(&self) -> usize {
        ask!(self, geometry => geometry.lines())
    }

    fn point_degree(&self) -> usize {
        ask!(self, geometry => geometry.point_degree())
    }

    fn line_degree(&self) -> usize {
        ask!(self, geometry => geometry.line_degree())
    }

    fn edges(&self) -> usize {
        ask!(self, geometry => geometry.edges())
    }

    fn edge_at(&self, point: usize, seat: usize) -> Option<usize> {
        ask!(self, geometry => geometry.edge_at(point, seat))
    }

    fn point_of(&self, edge: usize) -> Option<(usize, usize)> {
        ask!(self, geometry => geometry.point_of(edge))
    }
}

// The geometry of a kind over the field of an order. Refused with number 1 if the order is not listed, then with number 2
// if it is above 16 or there are more than 5,000 edges.
pub fn geometry_over(kind: Kind, order: usize) -> Result<AnyGeometry, Refusal>
    ensures answer { GivenOrRefused (standing_of (kind_over kind (defined_field order))) (λ g. geometry_of g ≡ kind_over kind (defined_field order)) result }
    ensures same { IfOk result (λ g. kind_of g ≡ kind) }
{
    let field = AnyField::try_from(order)?;
    checked(AnyGeometry::over(kind, field))
}
