//! The allotment list.

pub(crate) mod writing;

/// The fill of the order at a place of a book.
#[derive(Clone, Copy, PartialEq, Eq, Default, Debug)]
pub struct Allotment {
    pub place: usize,
    pub fill: u32,
}
