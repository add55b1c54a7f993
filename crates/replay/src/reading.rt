// How the arguments of a call are read. Absent where they are not what the call takes.
use crate::words::Words;
use any_code::Component;
use any_geometry::Kind;
use script::{Call, Operation, Question};

// A call to a field or a geometry, from its name on.
pub fn call(name: &str, words: &mut Words) -> Option<Call> {
    let call = match name {
        "field" => field_call(words)?,
        _ => geometry_call(name, words)?,
    };
    words.end()?;
    Some(call)
}

// The code and the word of a call of decoding, which is still in its digits.
pub fn decode_call<'a>(words: &mut Words<'a>) -> Option<(Component, &'a str)> {
    let component = component(words)?;
    let word = words.word()?;
    words.end()?;
    Some((component, word))
}

// The code whose checks are asked for.
pub fn checks_call(words: &mut Words) -> Option<Component> {
    let component = component(words)?;
    words.end()?;
    Some(component)
}

fn component(words: &mut Words) -> Option<Component> {
    match words.word()? {
        "rs" => Some(Component::ReedSolomon {
            order: words.number()?,
            size: words.number()?,
            checks: words.number()?,
        }),
        "bch" => Some(Component::Bch {
            size: words.number()?,
            radius: words.number()?,
        }),
        _ => None,
    }
}

fn field_call(words: &mut Words) -> Option<Call> {
    let order = words.number()?;
    let name = words.word()?;
    let a = words.number()?;
    let operation = match name {
        "add" => Operation::Sum(a, words.number()?),
        "neg" => Operation::Negative(a),
        "mul" => Operation::Product(a, words.number()?),
        "inv" => Operation::Inverse(a),
        _ => return None,
    };
    Some(Call::Field { order, operation })
}

fn geometry_call(name: &str, words: &mut Words) -> Option<Call> {
    let kind = kind(words.word()?)?;
    let order = words.number()?;
    let question = match name {
        "size" => Question::Size,
        "edge" => Question::Edge {
            point: words.number()?,
            seat: words.number()?,
        },
        "pointseat" => Question::PointSeat {
            edge: words.number()?,
        },
        "join" => Question::Join {
            line: words.number()?,
            point: words.number()?,
        },
        _ => return None,
    };
    Some(Call::Geometry {
        kind,
        order,
        question,
    })
}

fn kind(name: &str) -> Option<Kind> {
    match name {
        "euclidean" => Some(Kind::Euclidean),
        "projective" => Some(Kind::Projective),
        "quadrangle" => Some(Kind::Quadrangle),
        _ => None,
    }
}
