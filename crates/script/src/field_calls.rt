// Questions to a field.
ghost use Rattle.std.specs.Prelude.{◌≡◌};
ghost use Rattle.script.specs.Answers.{worked_out};

use crate::answer::Value;
use crate::call::Operation;
use field::Field;

// What a field gives by an operation; the inverse may be absent.
pub fn worked_out<F: Field>(field: &F, operation: Operation) -> Option<Value>
    ensures { result ≡ worked_out (F.Field.model field.now) operation }
{
    let code = match operation {
        Operation::Sum(a, b) => field.sum(a, b),
        Operation::Negative(a) => field.negative(a),
        Operation::Product(a, b) => field.product(a, b),
        Operation::Inverse(a) => field.inverse(a)?,
    };
    Some(Value::Number(code as usize))
}
