//! Why a file, a value or a call is refused.

mod place;
mod telling;

/// The causes of a refusal, in the order of their numbers.
#[derive(Clone, Copy, PartialEq, Eq, Debug)]
pub enum Refusal {
    /// 1: the file is empty or above 65,535 bytes.
    FileSize,
    /// 2: the mask is unknown or lacks the heading, or the contents are longer than the file.
    Contents,
    /// 3: contents and bodies do not sum to the file's length.
    FileLength,
    /// 4: a body has a wrong length; the byte is where the body begins.
    BodyLength(u16),
    /// 5: a field of the file is outside its values; the byte is the field's first.
    FiledField(u16),
    /// 5: a value that no file holds is outside its values.
    Value,
    /// 6: the time is below that of the last accepted call.
    TimeBelowLast,
    /// 7: the time is outside the call's bounds.
    TimeOutside,
    /// 8: the entry number is not above the last accepted one.
    EntryNumber,
    /// 9: the locked auction takes no market order, and no limit beyond the collar.
    OutsideCollar,
    /// 10: the auction book is full.
    BookFull,
    /// 11: no order with that entry number rests in the auction book.
    NoSuchOrder,
    /// 12: the allotment list is shorter than the whole book.
    AllotmentShort,
    /// 13: the stage has no such call.
    NotInStage,
}
