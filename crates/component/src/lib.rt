// The component code interface: linear checks over a field, and decoding within a radius.
#![tactic(auto)]

ghost use Rattle.std.specs.Prelude.{◌≡◌, ℕ, ◌<◌, true, length};
ghost use Rattle.component.specs.Calls.{decode_answer, decode_left, how_decoded};
ghost use Rattle.component.specs.Checks.{admitted, first_no_code, standing as standing_of, word_standing};
ghost use Rattle.component.specs.Decoding.{DecodedNear, DecodedOnly, RefusedFar, decoded, settled};
ghost use Rattle.component.specs.Model.{CodeLaws, CodeModel, over_field};
ghost use Rattle.refusal.specs.Given.{GivenOrRefused};

use field::{Field, is_listed};
use refusal::Refusal;

// How a decoding ended.
#[derive(Clone, Copy, PartialEq, Eq, Debug)]
pub enum Decoding {
    // the word is now the code word within the radius
    Settled,
    // there is no code word within the radius, and the word is as it was
    Refused,
}

pub trait ComponentCode {
    // The field of its symbols.
    type F: Field;

    ghost model: { Self → CodeModel };

    fn field(&self) -> &Self::F
        ensures { Self.F.Field.model result.now ≡ (model self.now).field };

    // How many symbols a word has.
    fn length(&self) -> usize
        ensures { result ≡ (model self.now).size };

    fn checks(&self) -> usize
        ensures { result ≡ (model self.now).checks };

    fn radius(&self) -> usize
        ensures { result ≡ (model self.now).radius };

    // Whether its numbers are within the limits of its kind.
    fn fits(&self) -> bool
        ensures { result ≡ (model self.now).fit };

    // The coefficient of a check at a seat.
    fn coefficient(&self, check: usize, seat: usize) -> u8
        ensures { result ≡ (model self.now).coefficient check seat };

    // Decodes a word of the right length over the field.
    fn settle(&self, word: &mut [u8]) -> Decoding
        requires { over_field (model self.now) word.old ≡ true }
        ensures answer { result ≡ how_decoded (decoded (model self.now) word.old) }
        ensures after { word.new ≡ settled (model self.now) word.old };

    ghost lawful: { (s : Self) → CodeLaws (model s) };
}

// The first place of a word whose symbol is no code of a field of this order.
pub fn first_no_code(order: usize, word: &[u8]) -> Option<usize>
    ensures { result ≡ first_no_code order word.now }
{
    word.iter().position(|symbol| *symbol as usize >= order)
}

// Whether a word has this length and holds codes of a field of this order alone: refused with 9, then with 10 for the first
// place that holds none.
#[tactic(auto, unfolding(crate::specs::Checks::word_standing))]
pub fn check_word(order: usize, length: usize, word: &[u8]) -> Result<(), Refusal>
    ensures { result ≡ word_standing order length word.now }
{
    if word.len() != length {
        return Err(Refusal::BufferLength);
    }
    if let Some(place) = first_no_code(order, word) {
        return Err(Refusal::NotACode { place });
    }
    Ok(())
}

// What calls refuse the code with, if anything: number 1 if the order of its field is not listed, then number 3 if its numbers
// are not within the limits of its kind.
pub fn standing<C: ComponentCode>(code: &C) -> Result<(), Refusal>
    ensures { result ≡ standing_of (C.ComponentCode.model code.now) }
{
    if !is_listed(code.field().order()) {
        return Err(Refusal::FieldOrder);
    }
    if !code.fits() {
        return Err(Refusal::CodeLimits);
    }
    Ok(())
}

// Gives the code back, or what `standing` refuses it with. The constructors that take only codes within the limits end in this.
pub fn checked<C: ComponentCode + Drop>(code: C) -> Result<C, Refusal>
    ensures { GivenOrRefused (standing_of (C.ComponentCode.model code)) (λ c. c ≡ code) result }
{
    standing(&code)?;
    Ok(code)
}

// The checks of a call of decoding.
fn admit<C: ComponentCode>(code: &C, word: &[u8]) -> Result<(), Refusal>
    ensures { result ≡ admitted (C.ComponentCode.model code.now) word.now }
{
    standing(code)?;
    check_word(code.field().order(), code.length(), word)
}

// Decodes a word: it becomes the code word that differs from it in at most the radius, if there is one, and stays otherwise.
// Refused with 1, 3, 9 or 10, and then the word stays too.
#[tactic(auto, using(crate::proofs::Words::over_from))]
pub fn decode<C: ComponentCode>(code: &C, word: &mut [u8]) -> Result<Decoding, Refusal>
    ensures answer { result ≡ decode_answer (C.ComponentCode.model code.now) word.old }
    ensures after { word.new ≡ decode_left (C.ComponentCode.model code.now) word.old }
{
    admit(code, word)?;
    Ok(code.settle(word))
}

// What decoding means, as theorems: what is decoded is a code word within the radius; where nothing is, there is none;
// and a code word within the radius is the one that is decoded.
pub fn decoding_is_right()
    ensures near { DecodedNear }
    ensures far { RefusedFar }
    ensures only { DecodedOnly }
{}
