// What a refused call answers, and what the decoder reports.
#![tactic(auto)]

ghost use Rattle.std.specs.Prelude.{◌≡◌};
ghost use Rattle.refusal.specs.Numbers.{number};

mod texts;

// A vertex of a geometry, by its number among the points or the lines.
#[derive(Clone, Copy, PartialEq, Eq, Debug)]
pub enum Vertex {
    Point(usize),
    Line(usize),
}

// How a run of the decoder ended. Stuck and spent name the first vertex at which the word fails, points before lines.
#[derive(Clone, Copy, PartialEq, Eq, Debug)]
pub enum Verdict {
    // the word passes everywhere
    Clean,
    // the last two half rounds altered nothing
    Stuck(Vertex),
    // the budget of half rounds is used up
    Spent(Vertex),
}

// What a run of the decoder tells.
#[derive(Clone, Copy, PartialEq, Eq, Debug)]
pub struct Report {
    pub verdict: Verdict,
    pub half_rounds: usize,
    // how many lines refused in the latest half round of lines, 0 where there was none; of points alike
    pub lines_refused: usize,
    pub points_refused: usize,
}

// Why a call is refused. Each case has a number, and a call makes its checks in the order of the numbers.
#[derive(Clone, Copy, PartialEq, Eq, Debug)]
pub enum Refusal {
    // the order of a field is not listed
    FieldOrder,
    // the field of a geometry has an order above 16, or there are more than 5,000 edges
    GeometrySize,
    // a component code's length, number of checks or radius is outside its limits
    CodeLimits,
    // a code's length is not the degree of its vertices, or the two codes' fields differ in order
    CodesMismatch,
    // the blocks are not 1 to 64, or do not fill the medium
    BlockCount,
    // the budget is above 1,000, or too small to format with
    Budget,
    // the block is beyond the last
    NoSuchBlock { block: usize },
    // the cell is beyond the last of the medium that was asked for it; the refusal then passed so many layers
    NoSuchCell { cell: usize, layers: usize },
    // the block holds no word
    VacantBlock,
    // a buffer has the wrong length
    BufferLength,
    // the symbol at this place is no code of the field
    NotACode { place: usize },
    // the word fails at this vertex, the first, points before lines
    FailsAt { vertex: Vertex },
    // the decoder got stuck
    Stuck { report: Report },
    // the decoder spent its budget
    Spent { report: Report },
    // an encoder's table is not reduced, or holds a byte that is no code
    NotReduced,
    // preparing an encoder's table left no place for data
    NoDataPlace,
    // the data are not as many as the data places
    DataLength,
    // the word worked out fails at a vertex: the table belongs to another code
    AnotherCodesTable,
}

impl Refusal {
    // The number of the refusal, 1 to 17.
    pub fn number(&self) -> u8
        ensures { result ≡ number self.now }
    {
        match self {
            Refusal::FieldOrder => 1,
            Refusal::GeometrySize => 2,
            Refusal::CodeLimits => 3,
            Refusal::CodesMismatch => 4,
            Refusal::BlockCount => 5,
            Refusal::Budget => 6,
            Refusal::NoSuchBlock { .. } | Refusal::NoSuchCell { .. } => 7,
            Refusal::VacantBlock => 8,
            Refusal::BufferLength => 9,
            Refusal::NotACode { .. } => 10,
            Refusal::FailsAt { .. } => 11,
            Refusal::Stuck { .. } => 12,
            Refusal::Spent { .. } => 13,
            Refusal::NotReduced => 14,
            Refusal::NoDataPlace => 15,
            Refusal::DataLength => 16,
            Refusal::AnotherCodesTable => 17,
        }
    }
}
