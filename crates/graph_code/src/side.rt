// The two sides of a graph code, and what a half round of one of them counts.

// The lines or the points.
#[derive(Clone, Copy, PartialEq, Eq, Debug)]
pub enum Side {
    Lines,
    Points,
}

// What a half round did: at how many vertices it altered a symbol, and how many refused.
#[derive(Clone, Copy, PartialEq, Eq, Debug)]
pub struct HalfRound {
    pub altered: usize,
    pub refused: usize,
}
