// Decoding by a component code.
ghost use Rattle.std.specs.Prelude.{◌≡◌};
ghost use Rattle.any_code.specs.Kinds.{code_meant};
ghost use Rattle.component.specs.Calls.{decode_answer, decode_left};

use any_code::{AnyCode, Component};
use component::Decoding;
use refusal::Refusal;

// Decodes a word by the code with these numbers.
pub fn decode(component: Component, word: &mut [u8]) -> Result<Decoding, Refusal>
    ensures answer { result ≡ decode_answer (code_meant component) word.old }
    ensures after { word.new ≡ decode_left (code_meant component) word.old }
{
    component::decode(&AnyCode::try_from(component)?, word)
}
