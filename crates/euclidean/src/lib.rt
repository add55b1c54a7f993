// The Euclidean plane over any field.
#![tactic(auto)]

ghost use Rattle.std.specs.Prelude.{◌≡◌, IfOk};
ghost use Rattle.geometry.specs.Limits.{standing as standing_of};
ghost use Rattle.refusal.specs.Given.{GivenOrRefused};
ghost use Rattle.euclidean.specs.Formulas.{euclidean as euclidean_plane};
ghost use Rattle.euclidean.specs.Plane.{IsEuclidean, OnlyEuclidean};
ghost use Rattle.euclidean.specs.Laws.{is_euclidean};

use field::{Field, difference};
use geometry::{Geometry, checked};
use radix::{Base, times};
use refusal::Refusal;

// Point (x, y) is point q * x + y, and line [a, b] is line q * a + b, where q is the order of the field.
// The point is on the line if y = a x + b. The seats of a vertex follow the rising numbers of the vertices opposite.
#[derive(Drop)]
pub struct EuclideanPlane<F: Field> {
    field: F,
}

impl<F: Field> EuclideanPlane<F> {
    // The plane over a field of any order.
    pub fn over(field: F) -> Self
        ensures over { result.field ≡ field }
        ensures meaning { IsEuclidean (F.Field.model field) (euclidean_plane (F.Field.model result.field)) }
        ensures only { OnlyEuclidean (F.Field.model field) (euclidean_plane (F.Field.model result.field)) }
    {
        EuclideanPlane { field }
    }
}

impl<F: Field + Drop> EuclideanPlane<F> {
    // The plane over a field. Refused with number 1 if the order of the field is not listed, then with number 2 if it is above 16 or there are more than 5,000 edges.
    pub fn new(field: F) -> Result<Self, Refusal>
        ensures answer { GivenOrRefused (standing_of (euclidean_plane (F.Field.model field))) (λ p. p.field ≡ field) result }
        ensures meaning { IfOk result (λ p. IsEuclidean (F.Field.model field) (euclidean_plane (F.Field.model p.field))) }
    {
        checked(Self::over(field))
    }
}

impl<F: Field> Geometry for EuclideanPlane<F> {
    ghost model = { λ s. euclidean_plane (F.Field.model s.field) };

    ghost lawful = { λ s. (is_euclidean (F.Field.model s.field) (F.Field.lawful s.field)).lawful };

    fn order(&self) -> usize {
        self.field.order()
    }

    fn points(&self) -> usize {
        let q = self.order();
        times(q, q)
    }

    fn lines(&self) -> usize {
        self.points()
    }

    fn point_degree(&self) -> usize {
        self.order()
    }

    fn line_degree(&self) -> usize {
        self.point_degree()
    }

    fn edges(&self) -> usize {
        times(self.points(), self.order())
    }

    // Seat i of point (x, y) is on the line [i, y - i x], and is its seat x.
    fn edge_at(&self, point: usize, seat: usize) -> Option<usize> {
        if point >= self.points() || seat >= self.point_degree() {
            return None;
        }
        let base = Base::of(&self.field);
        let (x, y) = base.two_digits(point);
        let b = difference(&self.field, y, self.field.product(seat as u8, x));
        let line = base.push_digit(seat, b);
        Some(base.push_digit(line, x))
    }

    // Seat x of line [a, b] has the point (x, a x + b), and is its seat a.
    fn point_of(&self, edge: usize) -> Option<(usize, usize)> {
        if edge >= self.edges() {
            return None;
        }
        let base = Base::of(&self.field);
        let (line, x) = base.pop_digit(edge);
        let (a, b) = base.two_digits(line);
        let y = self.field.sum(self.field.product(a, x), b);
        Some((base.push_digit(x as usize, y), a as usize))
    }
}
