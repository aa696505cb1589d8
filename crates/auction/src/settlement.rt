//! What became of the shares of the auction book.

mod counting;

/// The filled shares of the auction book, and the unfilled ones that ended and that were released.
#[derive(Clone, Copy, Default)]
pub(crate) struct Settlement {
    pub(crate) filled: u32,
    pub(crate) ended: u32,
    pub(crate) released: u32,
}
