// Questions to a geometry.
ghost use Rattle.std.specs.Prelude.{◌≡◌};
ghost use Rattle.any_geometry.specs.Kinds.{geometry_of, kind_of};
ghost use Rattle.script.specs.Answers.{Asked, sizes_of};

use crate::answer::{Sizes, Value};
use crate::call::Question;
use any_geometry::AnyGeometry;
use geometry::Geometry;

// The answer of a geometry to a question.
pub fn asked(geometry: &AnyGeometry, question: Question) -> Option<Value>
    ensures { Asked (kind_of geometry.now) (geometry_of geometry.now) question result }
{
    match question {
        Question::Size => Some(Value::Sizes(sizes(geometry))),
        Question::Edge { point, seat } => geometry.edge_at(point, seat).map(Value::Number),
        Question::PointSeat { edge } => geometry.point_of(edge).map(Value::Pair),
        Question::Join { line, point } => geometry.project(line, point).map(Value::Pair),
    }
}

fn sizes<G: Geometry>(geometry: &G) -> Sizes
    ensures { result ≡ sizes_of (G.Geometry.model geometry.now) }
{
    Sizes {
        points: geometry.points(),
        lines: geometry.lines(),
        point_degree: geometry.point_degree(),
        line_degree: geometry.line_degree(),
        edges: geometry.edges(),
    }
}
