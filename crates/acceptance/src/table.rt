//! What a line of the table asks for.

use cases::bytes_of;
use std::alloc::Global;

/// The range and twice the tie-breaker by which a book is priced, as the table has them.
#[derive(Clone, Copy)]
pub(crate) struct Bounds {
    pub(crate) low: u32,
    pub(crate) high: u32,
    pub(crate) twice: u32,
}

/// A quote and a last sale as the table has them: a bid or an offer of 0 is none.
#[derive(Clone, Copy)]
pub(crate) struct Quoted {
    pub(crate) bid: u32,
    pub(crate) offer: u32,
    pub(crate) last_sale: u32,
}

/// What a line asks for.
#[derive(Drop)]
pub(crate) enum Asked {
    /// To read a file.
    Read(Vec<u8>),
    /// To price the resting orders of a file.
    Price(Bounds, Vec<u8>),
    /// To price the resting orders of two files, one after the other.
    Joined(Bounds, Vec<u8>, Vec<u8>),
    /// To make the ranges of a quote.
    Collar(Quoted),
}

/// A number, and the text behind the space after it.
fn number_of(text: &str) -> Option<(u32, &str)> {
    let (number, text) = text.split_once(' ')?;
    Some((number.parse().ok()?, text))
}

/// Bounds, and the text behind the space after them.
fn bounds_of(text: &str) -> Option<(Bounds, &str)> {
    let (low, text) = number_of(text)?;
    let (high, text) = number_of(text)?;
    let (twice, text) = number_of(text)?;
    Some((Bounds { low, high, twice }, text))
}

/// A book to price: `LOW HIGH TWICE BYTES`.
fn price_of(heap: Global, text: &str) -> Option<Asked> {
    let (bounds, file) = bounds_of(text)?;
    Some(Asked::Price(bounds, bytes_of(heap, file).ok()?))
}

/// Two books to price as one: `price LOW HIGH TWICE BYTES BYTES2`.
fn joined_of(heap: Global, text: &str) -> Option<Asked> {
    let ("price", text) = text.split_once(' ')? else {
        return None;
    };
    let (bounds, text) = bounds_of(text)?;
    let (first, second) = text.split_once(' ')?;
    let first = bytes_of(heap, first).ok()?;
    let second = bytes_of(heap, second).ok()?;
    Some(Asked::Joined(bounds, first, second))
}

/// A quote: `BID OFFER LASTSALE`.
fn collar_of(text: &str) -> Option<Asked> {
    let (bid, text) = number_of(text)?;
    let (offer, text) = number_of(text)?;
    let last_sale = text.parse().ok()?;
    Some(Asked::Collar(Quoted {
        bid,
        offer,
        last_sale,
    }))
}

/// What the text after a name asks for. None where it has another form, or where there is no memory for its bytes.
pub(crate) fn asked_of(heap: Global, text: &str) -> Option<Asked> {
    match text.split_once(' ') {
        None => Some(Asked::Read(bytes_of(heap, text).ok()?)),
        Some(("price", words)) => price_of(heap, words),
        Some(("joined", words)) => joined_of(heap, words),
        Some(("collar", words)) => collar_of(words),
        Some(_) => None,
    }
}
