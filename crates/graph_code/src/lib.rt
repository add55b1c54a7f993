// Graph codes: a word has a symbol on each edge of a geometry, and passes at a vertex if the symbols there are a code word.
#![tactic(auto)]

ghost use Rattle.std.specs.Prelude.{◌≡◌, Ok, Err};
ghost use Rattle.graph_code.specs.Calls.{round_answer, round_left, test_answer};
ghost use Rattle.graph_code.specs.Checks.{admitted, standing as standing_of, word_standing};
ghost use Rattle.graph_code.specs.Model.{GraphLaws, GraphModel, symbol_order, symbols as symbols_of};
ghost use Rattle.graph_code.specs.Rounds.{after_round, counted};
ghost use Rattle.graph_code.specs.Sides.{side as side_of};
ghost use Rattle.graph_code.specs.Words.{NoneFails, first_failing};

use refusal::{Refusal, Vertex};

mod side;

pub use side::{HalfRound, Side};

pub trait GraphCode {
    ghost model: { Self → GraphModel };

    // What every call refuses the code with, if anything: numbers 1 to 4.
    fn standing(&self) -> Result<(), Refusal>
        ensures { result ≡ standing_of (model self.now) };

    // How many symbols a word has.
    fn symbols(&self) -> usize
        ensures { result ≡ symbols_of (model self.now) };

    // The order of the field of the symbols.
    fn order(&self) -> usize
        ensures { result ≡ symbol_order (model self.now) };

    // The first vertex at which the word fails, points before lines. It is never refused: a lawful geometry answers for each seat.
    fn failing(&self, word: &[u8]) -> Result<Option<Vertex>, Refusal>
        requires { admitted (model self.now) word.now ≡ Ok tt }
        ensures { result ≡ Ok (first_failing (model self.now) word.now) };

    // Decodes every vertex of a side. Never refused either.
    fn settle_side(&self, side: Side, word: &mut [u8]) -> Result<HalfRound, Refusal>
        requires { admitted (model self.now) word.old ≡ Ok tt }
        ensures answer { result ≡ Ok (counted (side_of (model self.now) side) word.old) }
        ensures after { word.new ≡ after_round (model self.now) side word.old };

    ghost lawful: { (s : Self) → GraphLaws (model s) };
}

// The checks of a word: 9 if its length is not that of the code, 10 for the first place whose symbol is no code.
pub fn check_word<C: GraphCode>(code: &C, word: &[u8]) -> Result<(), Refusal>
    ensures { result ≡ word_standing (C.GraphCode.model code.now) word.now }
{
    component::check_word(code.order(), code.symbols(), word)
}

// The checks of a call with a graph code and a word.
fn admit<C: GraphCode>(code: &C, word: &[u8]) -> Result<(), Refusal>
    ensures { result ≡ admitted (C.GraphCode.model code.now) word.now }
{
    code.standing()?;
    check_word(code, word)
}

// The word test: the first vertex at which the word fails, points before lines, or none if it passes everywhere.
// Refused with 1, 2, 3, 4, 9 or 10.
pub fn first_failing<C: GraphCode>(code: &C, word: &[u8]) -> Result<Option<Vertex>, Refusal>
    ensures { result ≡ test_answer (C.GraphCode.model code.now) word.now }
{
    admit(code, word)?;
    code.failing(word)
}

// A half round: decodes every vertex of a side; a vertex that refuses keeps its symbols.
// Refused with 1, 2, 3, 4, 9 or 10, and then the word stays.
pub fn half_round<C: GraphCode>(code: &C, side: Side, word: &mut [u8]) -> Result<HalfRound, Refusal>
    ensures answer { result ≡ round_answer (C.GraphCode.model code.now) side word.old }
    ensures after { word.new ≡ round_left (C.GraphCode.model code.now) side word.old }
{
    admit(code, word)?;
    code.settle_side(side, word)
}

// No vertex is the first to fail exactly where the word passes everywhere.
pub fn none_fails_where_all_pass()
    ensures { NoneFails }
{}
