// A component code of any kind, chosen at run time: an enum over the kinds, which is a component code itself.
#![tactic(auto)]

ghost use Rattle.std.specs.Prelude.{◌≡◌};
ghost use Rattle.any_code.specs.Kinds.{IsCodeWith, code_of};
ghost use Rattle.any_code.specs.Lawful.{code_lawful};

use any_field::AnyField;
use bch::Bch;
use component::{ComponentCode, Decoding};
use reed_solomon::ReedSolomon;
use refusal::Refusal;

mod kind;

pub use kind::BchOverAny;

// A component code by its numbers, within its limits or not.
#[derive(Clone, Copy, PartialEq, Eq, Debug)]
pub enum Component {
    ReedSolomon {
        order: usize,
        size: usize,
        checks: usize,
    },
    Bch {
        size: usize,
        radius: usize,
    },
}

#[derive(Drop)]
pub enum AnyCode {
    ReedSolomon(ReedSolomon<AnyField>),
    Bch(BchOverAny),
}

// What the code answers, whatever its kind.
macro_rules! ask {
    ($any:expr, $code:ident => $answer:expr) => {
        match $any {
            AnyCode::ReedSolomon($code) => $answer,
            AnyCode::Bch(BchOverAny { code: $code, .. }) => $answer,
        }
    };
}

// The code with these numbers. Refused with 1 if the order of its field is not listed; numbers outside the limits mean no code.
impl TryFrom<Component> for AnyCode {
    type Error = Refusal;

    ghost try_from_gives = { IsCodeWith };

    fn try_from(component: Component) -> Result<AnyCode, Refusal> {
        match component {
            Component::ReedSolomon {
                order,
                size,
                checks,
            } => {
                let field = AnyField::try_from(order)?;
                Ok(AnyCode::ReedSolomon(ReedSolomon::over(field, size, checks)))
            }
            Component::Bch { size, radius } => {
                let field = AnyField::try_from(2)?;
                Ok(AnyCode::Bch(BchOverAny {
                    code: Bch::of(size, radius),
                    field,
                }))
            }
        }
    }
}

impl ComponentCode for AnyCode {
    type F = AnyField;

    ghost model = { code_of };

    ghost lawful = { code_lawful };

    fn field(&self) -> &AnyField {
        match self {
            AnyCode::ReedSolomon(c) => c.field(),
            AnyCode::Bch(c) => &c.field,
        }
    }

    fn length(&self) -> usize {
        ask!(self, code => code.length())
    }

    fn checks(&self) -> usize {
        ask!(self, code => code.checks())
    }

    fn radius(&self) -> usize {
        ask!(self, code => code.radius())
    }

    fn fits(&self) -> bool {
        ask!(self, code => code.fits())
    }

    fn coefficient(&self, check: usize, seat: usize) -> u8 {
        ask!(self, code => code.coefficient(check, seat))
    }

    fn settle(&self, word: &mut [u8]) -> Decoding {
        ask!(self, code => code.settle(word))
    }
}
