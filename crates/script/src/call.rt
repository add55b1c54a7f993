// The calls that a script may make.
use any_geometry::Kind;

// A question to a field, with its operands.
#[derive(Clone, Copy, PartialEq, Eq, Debug)]
pub enum Operation {
    Sum(u8, u8),
    Negative(u8),
    Product(u8, u8),
    Inverse(u8),
}

// A question to a geometry.
#[derive(Clone, Copy, PartialEq, Eq, Debug)]
pub enum Question {
    // how many points, lines, seats of a point, seats of a line, and edges
    Size,
    // the edge at a seat of a point
    Edge { point: usize, seat: usize },
    // the point and the seat of an edge
    PointSeat { edge: usize },
    // the point of a line joined to a point, and the joining line
    Join { line: usize, point: usize },
}

#[derive(Clone, Copy, PartialEq, Eq, Debug)]
pub enum Call {
    Field {
        order: usize,
        operation: Operation,
    },
    Geometry {
        kind: Kind,
        order: usize,
        question: Question,
    },
}
