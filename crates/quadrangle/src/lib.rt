// The quadrangle over any field: the affine part of a generalised quadrangle.
#![tactic(auto)]

ghost use Rattle.std.specs.Prelude.{◌≡◌, ◌^◌, ◌<◌, IfOk};
ghost use Rattle.geometry.specs.Limits.{standing as standing_of};
ghost use Rattle.refusal.specs.Given.{GivenOrRefused};
ghost use Rattle.geometry.specs.Projection.{OnePair};
ghost use Rattle.quadrangle.specs.Affine.{IsQuadrangle, OnlyQuadrangle};
ghost use Rattle.quadrangle.specs.Formulas.{line_through, point_over, quadrangle as affine_quadrangle};
ghost use Rattle.quadrangle.specs.Projected.{gap, joining_pair, projected};
ghost use Rattle.quadrangle.specs.Laws.{is_quadrangle};
ghost use Rattle.quadrangle.specs.Projections.{one_pair};

use field::{Field, difference, quotient};
use geometry::{Geometry, Quadrangle, checked};
use radix::{Base, times};
use refusal::Refusal;

mod coordinates;

use coordinates::{Line, Point};

// Point (x, y, z) is point q * q * x + q * y + z, and line [a, b, c] is numbered alike, where q is the order of the field.
// The point is on the line if y + b = a x and z + c = x b. The seats of a vertex follow the rising numbers of the vertices opposite.
#[derive(Drop)]
pub struct AffineQuadrangle<F: Field> {
    field: F,
}

impl<F: Field> AffineQuadrangle<F> {
    // The quadrangle over a field of any order.
    pub fn over(field: F) -> Self
        ensures over { result.field ≡ field }
        ensures meaning { IsQuadrangle (F.Field.model field) (affine_quadrangle (F.Field.model result.field)) }
        ensures only { OnlyQuadrangle (F.Field.model field) (affine_quadrangle (F.Field.model result.field)) }
        ensures promise { OnePair (affine_quadrangle (F.Field.model result.field)) }
    {
        AffineQuadrangle { field }
    }

    // The line of slope a through a point.
    fn line_through(&self, point: Point, a: u8) -> usize
        ensures value { result ≡ line_through (F.Field.model self.now.field) point.x point.y point.z a }
        ensures most { result < 2 ^ 25 }
    {
        let field = &self.field;
        let b = difference(field, field.product(a, point.x), point.y);
        let c = difference(field, field.product(point.x, b), point.z);
        Base::of(field).from_digits(a, b, c)
    }

    // The point of a line over x.
    fn point_over(&self, line: Line, x: u8) -> usize
        ensures value { result ≡ point_over (F.Field.model self.now.field) line.a line.b line.c x }
        ensures most { result < 2 ^ 25 }
    {
        let field = &self.field;
        let y = difference(field, field.product(line.a, x), line.b);
        let z = difference(field, field.product(x, line.b), line.c);
        Base::of(field).from_digits(x, y, z)
    }

    // How far x and y are from y + b = a x.
    fn gap(&self, a: u8, b: u8, x: u8, y: u8) -> u8
        ensures { result ≡ gap (F.Field.model self.now.field) a b x y }
    {
        difference(&self.field, self.field.product(a, x), self.field.sum(y, b))
    }

    // The pair that joins a line to a point. With e = a x - (y + b) and h = x b - (z + c), it is the point of the line
    // over h / e and the line of slope a + e / (h / e - x) through the point.
    fn joining(&self, line: Line, point: Point) -> Option<(usize, usize)>
        ensures { result ≡ joining_pair (F.Field.model self.now.field) line.a line.b line.c point.x point.y point.z }
    {
        let field = &self.field;
        let turn = self.gap(line.a, line.b, point.x, point.y);
        let place = quotient(field, self.gap(point.x, line.c, line.b, point.z), turn)?;
        let rise = quotient(field, turn, difference(field, place, point.x))?;
        let slope = field.sum(line.a, rise);
        Some((
            self.point_over(line, place),
            self.line_through(point, slope),
        ))
    }

    fn projection(&self, line: usize, point: usize) -> Option<(usize, usize)>
        ensures { result ≡ projected (F.Field.model self.now.field) line point }
    {
        if line >= self.lines() || point >= self.points() {
            return None;
        }
        let base = Base::of(&self.field);
        let (a, b, c) = base.three_digits(line);
        let (x, y, z) = base.three_digits(point);
        self.joining(Line { a, b, c }, Point { x, y, z })
    }
}

impl<F: Field + Drop> AffineQuadrangle<F> {
    // The quadrangle over a field. Refused with number 1 if the order of the field is not listed, then with number 2 if it is above 16 or there are more than 5,000 edges.
    pub fn new(field: F) -> Result<Self, Refusal>
        ensures answer { GivenOrRefused (standing_of (affine_quadrangle (F.Field.model field))) (λ p. p.field ≡ field) result }
        ensures meaning { IfOk result (λ p. IsQuadrangle (F.Field.model field) (affine_quadrangle (F.Field.model p.field))) }
    {
        checked(Self::over(field))
    }
}

impl<F: Field> Geometry for AffineQuadrangle<F> {
    ghost model = { λ s. affine_quadrangle (F.Field.model s.field) };

    ghost lawful = { λ s. (is_quadrangle (F.Field.model s.field) (F.Field.lawful s.field)).lawful };

    fn order(&self) -> usize {
        self.field.order()
    }

    fn points(&self) -> usize {
        let q = self.order();
        times(times(q, q), q)
    }

    fn lines(&self) -> usize {
        self.points()
    }

    fn point_degree(&self) -> usize {
        self.order()
    }

    fn line_degree(&self) -> usize {
        self.point_degree()
    }

    fn edges(&self) -> usize {
        times(self.points(), self.order())
    }

    // Seat i of point (x, y, z) is on the line [i, b, c] with b = i x - y and c = x b - z, and is its seat x.
    fn edge_at(&self, point: usize, seat: usize) -> Option<usize> {
        if point >= self.points() || seat >= self.point_degree() {
            return None;
        }
        let base = Base::of(&self.field);
        let (x, y, z) = base.three_digits(point);
        let line = self.line_through(Point { x, y, z }, seat as u8);
        Some(base.push_digit(line, x))
    }

    // Seat x of line [a, b, c] has the point (x, a x - b, x b - c), and is its seat a.
    fn point_of(&self, edge: usize) -> Option<(usize, usize)> {
        if edge >= self.edges() {
            return None;
        }
        let base = Base::of(&self.field);
        let (line, x) = base.pop_digit(edge);
        let (a, b, c) = base.three_digits(line);
        Some((self.point_over(Line { a, b, c }, x), a as usize))
    }
}

impl<F: Field> Quadrangle for AffineQuadrangle<F> {
    ghost alone = { λ s. one_pair (F.Field.model s.field) (F.Field.lawful s.field) };

    fn project(&self, line: usize, point: usize) -> Option<(usize, usize)> {
        self.projection(line, point)
    }
}
