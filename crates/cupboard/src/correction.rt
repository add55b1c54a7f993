// A Reed-Solomon word of 15 symbols over the field of 16, spoiled and put right, or refused.
use binary_field::BinaryField;
use component::{ComponentCode, Decoding, decode};
use reed_solomon::ReedSolomon;
use std::fmt;

// A code word.
const WORD: [u8; 15] = [13, 1, 4, 7, 2, 11, 0, 9, 5, 3, 8, 5, 0, 2, 6];

const CASES: [Case; 3] = [
    Case {
        title: "A code word, as it is.",
        spoiled: &[],
    },
    Case {
        title: "Two symbols are spoiled, at seats 0 and 9.",
        spoiled: &[(0, 6), (9, 12)],
    },
    Case {
        title: "Three symbols are spoiled, at seats 2, 5 and 11.",
        spoiled: &[(2, 13), (5, 8), (11, 11)],
    },
];

struct Case {
    title: &'static str,
    // the seats of the code word that are spoiled, each with the symbol that came
    spoiled: &'static [(usize, u8)],
}

impl Case {
    // The word that came.
    fn came(&self) -> [u8; 15] {
        let mut word = WORD;
        for &(seat, symbol) in self.spoiled {
            if let Some(place) = word.get_mut(seat) {
                *place = symbol;
            }
        }
        word
    }
}

pub fn run(rt: &impl Print) -> anyhow::Result<()> {
    let code = ReedSolomon::new(BinaryField::try_from(16)?, 15, 4)?;
    println!(rt; "A Reed-Solomon code over the field of 16: 15 symbols, 4 checks, radius 2.")?;
    for case in &CASES {
        attempt(rt, &code, case)?;
    }
    Ok(())
}

// Decodes the word that came, and shows what became of it.
fn attempt<C: ComponentCode>(rt: &impl Print, code: &C, case: &Case) -> anyhow::Result<()> {
    println!(rt; "\n{}", case.title)?;
    let came = case.came();
    println!(rt; "  came  {}", Symbols(&came))?;
    let mut word = came;
    match decode(code, &mut word) {
        Ok(Decoding::Settled) => println!(rt; "  decoded: a code word lies within the radius")?,
        Ok(Decoding::Refused) => println!(rt; "  refused: no code word lies within the radius")?,
        Err(refusal) => println!(rt; "  refused with number {}", refusal.number())?,
    }
    println!(rt; "  now   {}", Symbols(&word))?;
    if word == WORD {
        println!(rt; "  The word is as it was.")?;
    } else if word == came {
        println!(rt; "  The word is left as it came.")?;
    } else {
        println!(rt; "  The word is neither as it was nor as it came.")?;
    }
    Ok(())
}

// The symbols of a word, in columns.
#[derive(Clone, Copy)]
struct Symbols<'a>(&'a [u8]);

impl<'a> fmt::Display for Symbols<'a> {
    fn fmt<W: fmt::Write>(&self, f: &mut fmt::Formatter<W>) -> fmt::Result {
        for symbol in self.0 {
            write!(f, " {symbol:>2}")?;
        }
        Ok(())
    }
}
