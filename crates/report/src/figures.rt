//! The figures of a session's resting orders by themselves, in the collar of the last sale.

ghost use Rattle.std.specs.Prelude.{◌≡◌, ◌≤◌, [], ◌++◌, length, IfOk, string_bytes};
ghost use Rattle.market.specs.RankingNames.{ranking_number};
ghost use Rattle.market.specs.Ranges.{collar_highest, collar_lowest, twice_middle};
ghost use Rattle.session.specs.Records.{events_in, orders_in};
ghost use Rattle.report.specs.Pricing.{Priced};
ghost use Rattle.report.specs.Text.{figures_text, first_line, ranking_of};

use crate::pricing::cross_by;
use book::Book;
use cross::allotment::Allotment;
use cross::crossing::Crossing;
use market::range::PriceRange;
use reporting::FIRST_LINE;
use session::file::SessionFile;
use session::heading::Heading;
use std::alloc::{AllocError, Global};
use std::fmt::Write;

/// The collar of the last sale, and the price and shares at which the resting orders would clear in it.
#[derive(Clone, Copy)]
pub(crate) struct Figures {
    pub(crate) collar: PriceRange,
    pub(crate) crossing: Crossing,
}

impl Figures {
    /// Crosses the book in the collar of the last sale, by the heading's ranking, and writes the fills.
    pub(crate) fn of<B: Book>(book: &B, heading: Heading, list: &mut [Allotment]) -> Figures
        requires { length (B.Book.orders book.now) ≤ length list.old }
        ensures low { result.collar.lowest.cents ≡ collar_lowest heading.last_sale.cents heading.last_sale.cents }
        ensures high { result.collar.highest.cents ≡ collar_highest heading.last_sale.cents heading.last_sale.cents }
        ensures crossed { Priced result.collar.lowest.cents result.collar.highest.cents (ranking_of (ranking_number heading.ranking)) (B.Book.orders book.now) (twice_middle heading.last_sale.cents heading.last_sale.cents) list.old list.new result.crossing.price.cents result.crossing.executed }
    {
        let last = PriceRange::from(heading.last_sale);
        let collar = last.collar();
        let crossing = cross_by(heading.ranking, book, collar, last.twice_middle(), list).unwrap();
        Figures { collar, crossing }
    }
}

/// The text of an accepted file but for its fills.
pub(crate) fn figures_text(
    heap: Global,
    session: &SessionFile<'_>,
    figures: Figures,
) -> Result<String, AllocError>
    ensures { IfOk result (λ t. string_bytes t ≡ first_line ++ figures_text (length (orders_in session.now.resting.records.now)) (length (events_in session.now.events.records.now)) (length session.now.note.now) session.now.heading.last_sale.cents (ranking_number session.now.heading.ranking) figures.collar.lowest.cents figures.collar.highest.cents figures.crossing.price.cents figures.crossing.executed []) }
{
    let resting = session.resting.count();
    let events = session.events.count();
    let note = session.note.len();
    let last_sale = session.heading.last_sale.cents;
    let ranking = session.heading.ranking.number();
    let PriceRange { lowest, highest } = figures.collar;
    let Crossing { price, executed } = figures.crossing;
    let (low, high, price) = (lowest.cents, highest.cents, price.cents);
    let mut text = String::from_str(heap, FIRST_LINE)?;
    writeln!(text, "read,{resting},{events},{note},{last_sale},{ranking}")?;
    writeln!(text, "collar,{low},{high}")?;
    writeln!(text, "clears,{price},{executed}")?;
    Ok(text)
}
