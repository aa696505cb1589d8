//! The bodies of a session file.

pub(crate) mod contents;
pub(crate) mod layers;

/// The kinds of bodies, in their sequence in the file, by their bits in the mask.
#[derive(Clone, Copy)]
pub enum BodyKind {
    Heading = 1,
    Resting = 2,
    Events = 4,
    Note = 8,
}

impl BodyKind {
    /// All of them, in that sequence.
    pub(crate) const ALL: [BodyKind; 4] = [
        BodyKind::Heading,
        BodyKind::Resting,
        BodyKind::Events,
        BodyKind::Note,
    ];
}

/// A body as the part of the file that it is.
// By a rule of the project it is told by its case, so that each case borrows its bytes.
#[derive(Clone, Copy)]
pub enum Body<'a> {
    Heading(&'a [u8]),
    Resting(&'a [u8]),
    Events(&'a [u8]),
    Note(&'a [u8]),
}
