// The projective plane over any field.
#![tactic(auto)]

ghost use Rattle.std.specs.Prelude.{◌≡◌, IfOk};
ghost use Rattle.geometry.specs.Limits.{standing as standing_of};
ghost use Rattle.refusal.specs.Given.{GivenOrRefused};
ghost use Rattle.projective.specs.Formulas.{projective as projective_plane};
ghost use Rattle.projective.specs.Plane.{IsProjective, OnlyProjective};
ghost use Rattle.projective.specs.Laws.{is_projective};

use field::Field;
use geometry::{Geometry, checked};
use radix::{div_rem, times};
use refusal::Refusal;

mod triple;
mod vertices;

// Points (1, y, z), (0, 1, z) and (0, 0, 1) are points q * y + z, q * q + z and q * q + q, where q is the order of the field.
// Lines have the same triples and numbers, and point (x, y, z) is on line (a, b, c) if a x + b y + c z = 0.
// The seats of a vertex follow the rising numbers of the vertices opposite.
#[derive(Drop)]
pub struct ProjectivePlane<F: Field> {
    field: F,
}

impl<F: Field> ProjectivePlane<F> {
    // The plane over a field of any order.
    pub fn over(field: F) -> Self
        ensures over { result.field ≡ field }
        ensures meaning { IsProjective (F.Field.model field) (projective_plane (F.Field.model result.field)) }
        ensures only { OnlyProjective (F.Field.model field) (projective_plane (F.Field.model result.field)) }
    {
        ProjectivePlane { field }
    }
}

impl<F: Field + Drop> ProjectivePlane<F> {
    // The plane over a field. Refused with number 1 if the order of the field is not listed, then with number 2 if it is above 16 or there are more than 5,000 edges.
    pub fn new(field: F) -> Result<Self, Refusal>
        ensures answer { GivenOrRefused (standing_of (projective_plane (F.Field.model field))) (λ p. p.field ≡ field) result }
        ensures meaning { IfOk result (λ p. IsProjective (F.Field.model field) (projective_plane (F.Field.model p.field))) }
    {
        checked(Self::over(field))
    }
}

impl<F: Field> Geometry for ProjectivePlane<F> {
    ghost model = { λ s. projective_plane (F.Field.model s.field) };

    ghost lawful = { λ s. (is_projective (F.Field.model s.field) (F.Field.lawful s.field)).lawful };

    fn order(&self) -> usize {
        self.field.order()
    }

    fn points(&self) -> usize {
        let q = self.order();
        times(q, q) + q + 1
    }

    fn lines(&self) -> usize {
        self.points()
    }

    fn point_degree(&self) -> usize {
        self.order() + 1
    }

    fn line_degree(&self) -> usize {
        self.point_degree()
    }

    fn edges(&self) -> usize {
        times(self.points(), self.point_degree())
    }

    fn edge_at(&self, point: usize, seat: usize) -> Option<usize> {
        if point >= self.points() || seat >= self.point_degree() {
            return None;
        }
        let point = self.triple_of(point);
        let line = self.opposite(point, seat);
        Some(times(self.number_of(line), self.line_degree()) + self.seat_of(line, point))
    }

    fn point_of(&self, edge: usize) -> Option<(usize, usize)> {
        if edge >= self.edges() {
            return None;
        }
        let (line, place) = div_rem(edge, self.line_degree());
        let line = self.triple_of(line);
        let point = self.opposite(line, place);
        Some((self.number_of(point), self.seat_of(point, line)))
    }
}
