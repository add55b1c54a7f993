// Why the Reed-Solomon decoder is right, over any field: theorems, with no code.
#![tactic(auto)]

ghost use Rattle.reed_solomon_theory.specs.Code.{Distance};
ghost use Rattle.reed_solomon_theory.specs.Decode.{FewRoots, Mends};
ghost use Rattle.reed_solomon_theory.specs.Promise.{Finishes, Only, Stays};

// Two code words that differ in at most as many seats as there are checks are equal; so within half as many there is at most one.
pub fn code_words_are_apart()
    ensures distance { Distance }
    ensures only { Only }
{}

// A polynomial has no more roots than its degree.
pub fn roots_are_few()
    ensures { FewRoots }
{}

// From any locator polynomial, the code word within half the checks is found if there is one, and else some check remains;
// and a word whose checks are 0 is decoded as it is.
pub fn decoding_is_right()
    ensures mends { Mends }
    ensures finishes { Finishes }
    ensures stays { Stays }
{}
