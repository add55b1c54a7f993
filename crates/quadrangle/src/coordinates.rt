// The coordinates of points and of lines: codes of the field.

// The point (x, y, z).
#[derive(Clone, Copy, PartialEq, Eq, Debug)]
pub(crate) struct Point {
    pub(crate) x: u8,
    pub(crate) y: u8,
    pub(crate) z: u8,
}

// The line [a, b, c].
#[derive(Clone, Copy, PartialEq, Eq, Debug)]
pub(crate) struct Line {
    pub(crate) a: u8,
    pub(crate) b: u8,
    pub(crate) c: u8,
}
