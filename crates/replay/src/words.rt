// The words of a line, one after the other. Words are separated by single spaces.
use std::num::ParseIntError;
use std::str::{FromStr, Split};

#[derive(Drop)]
pub struct Words<'a>(Split<'a, char>);

impl<'a> Words<'a> {
    pub fn of(line: &'a str) -> Words<'a> {
        Words(line.split(' '))
    }

    pub fn word(&mut self) -> Option<&'a str> {
        self.0.next()
    }

    pub fn number<N: FromStr<Err = ParseIntError>>(&mut self) -> Option<N> {
        self.word()?.parse().ok()
    }

    // Absent if there is a further word.
    pub fn end(&mut self) -> Option<()> {
        self.word().is_none().then_some(())
    }
}
