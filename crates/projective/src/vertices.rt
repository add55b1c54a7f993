// The vertices of the plane: their triples, their numbers, and what stands opposite.
ghost use Rattle.std.specs.Prelude.{◌≡◌, ◌^◌, ◌<◌, ◌≤◌};
ghost use Rattle.projective.specs.Formulas.{opposite as opposite_of, seat_of, triple_of};
ghost use Rattle.projective.specs.Triples.{number_of, x_of, y_of, z_of};

use crate::ProjectivePlane;
use crate::triple::Triple;
use field::{Field, quotient};
use geometry::Geometry;
use radix::{Base, times};

impl<F: Field> ProjectivePlane<F> {
    // The triple of a vertex.
    #[inline(always)]
    pub(crate) fn triple_of(&self, vertex: usize) -> Triple
        ensures { result ≡ triple_of (F.Field.model self.now.field).order vertex }
    {
        let q = self.order();
        let square = times(q, q);
        if vertex < square {
            let (y, z) = Base::of(&self.field).two_digits(vertex);
            Triple::Affine(y, z)
        } else if vertex < square + q {
            Triple::Ideal((vertex - square) as u8)
        } else {
            Triple::Last
        }
    }

    // The number of a triple.
    #[inline(always)]
    pub(crate) fn number_of(&self, triple: Triple) -> usize
        ensures value { result ≡ number_of (F.Field.model self.now.field).order triple }
        ensures most { result < 2 ^ 17 }
    {
        let q = self.order();
        match triple {
            Triple::Affine(y, z) => times(q, y as usize) + z as usize,
            Triple::Ideal(z) => times(q, q) + z as usize,
            Triple::Last => times(q, q) + q,
        }
    }

    // What stands at a seat of the vertex (a, b, c): if c is not 0, (1, i, -(a + b i) / c) at seat i and (0, 1, -b / c) at seat q;
    // else if b is not 0, (1, -a / b, i) and (0, 0, 1); else (0, 1, i) and (0, 0, 1).
    #[inline(always)]
    pub(crate) fn opposite(&self, vertex: Triple, seat: usize) -> Triple
        ensures { result ≡ opposite_of (F.Field.model self.now.field) (x_of vertex) (y_of vertex) (z_of vertex) seat }
    {
        let field = &self.field;
        let (a, b, c) = vertex.coordinates();
        if seat >= field.order() {
            return quotient(field, field.negative(b), c).map_or(Triple::Last, Triple::Ideal);
        }
        let i = seat as u8;
        if let Some(z) = quotient(field, field.negative(field.sum(a, field.product(b, i))), c) {
            Triple::Affine(i, z)
        } else if let Some(y) = quotient(field, field.negative(a), b) {
            Triple::Affine(y, i)
        } else {
            Triple::Ideal(i)
        }
    }

    // The seat, at a vertex, of another that is incident with it. The third coordinate of the vertex alone tells.
    #[inline(always)]
    pub(crate) fn seat_of(&self, vertex: Triple, other: Triple) -> usize
        ensures value { result ≡ seat_of (F.Field.model self.now.field).order (z_of vertex) other }
        ensures most { result ≤ 256 }
    {
        let (_, _, c) = vertex.coordinates();
        match (c, other) {
            (0, Triple::Affine(_, z) | Triple::Ideal(z)) => z as usize,
            (_, Triple::Affine(y, _)) => y as usize,
            (_, Triple::Ideal(_) | Triple::Last) => self.order(),
        }
    }
}
