// The decoder of a graph code as a machine, and why a run within bounds succeeds. The theorems are contracts of functions that do nothing.
#![tactic(auto)]

ghost use Rattle.decoder_theory.specs.Bounds.{PlanesShrink};
ghost use Rattle.decoder_theory.specs.Correction.{Corrects, CorrectsToBound};
ghost use Rattle.decoder_theory.specs.Distance.{WordsApart};
ghost use Rattle.decoder_theory.specs.Machine.{RunEnds};

mod state;

pub use state::State;

// A run ends with a verdict.
pub fn runs_end()
    ensures { RunEnds }
{}

// Where a few wrong vertices are always followed by fewer, a run on a word with few heavy lines ends clean, at the word it came from.
pub fn runs_correct()
    ensures { Corrects }
{}

// In every geometry a few wrong vertices are followed by fewer, up to the bound of the code.
pub fn wrong_vertices_shrink()
    ensures { PlanesShrink }
{}

// So a run on a word with no more heavy lines than the bound ends clean, at the word it came from.
pub fn runs_correct_to_the_bound()
    ensures { CorrectsToBound }
{}

// Two different words of a graph code are far apart.
pub fn words_are_apart()
    ensures { WordsApart }
{}
