// The state of the decoder between two steps.
use graph_code::Side;
use refusal::Verdict;

#[derive(Clone, Copy, PartialEq, Eq, Debug)]
pub struct State {
    // the side whose turn it is
    pub turn: Side,
    // the half rounds made
    pub made: usize,
    // how many of the latest half rounds in a row altered nothing
    pub quiet: usize,
    // how many vertices refused in the latest half round of each side, 0 where there was none
    pub lines_refused: usize,
    pub points_refused: usize,
    // absent until the decoder is done
    pub verdict: Option<Verdict>,
}
