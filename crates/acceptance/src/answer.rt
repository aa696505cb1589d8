//! What is answered for a file.

ghost use Rattle.std.specs.Prelude.{◌≡◌, ◌+◌, ◌||◌, nat_le, nat_lt};

use crate::shown::{ShownEvent, ShownTerms};
use book::Book;
use session::file::SessionFile;
use std::{fmt, io};

/// How many of a long list are shown at each of its ends.
const AT_EACH_END: usize = 8;

/// Whether the place is among those of a list that are shown.
fn is_shown(place: usize, count: usize) -> bool
    ensures { result ≡ nat_lt place 8 || nat_le count (place + 8) }
{
    place < AT_EACH_END || count <= AT_EACH_END || place >= count - AT_EACH_END
}

/// What an accepted file holds: `read,LASTSALE,RANKING,ORDERS,EVENTS,NOTEBYTES`.
#[derive(Clone, Copy)]
pub(crate) struct Contents<'a>(pub(crate) SessionFile<'a>);

impl fmt::Display for Contents<'_> {
    fn fmt<W: fmt::Write>(&self, f: &mut fmt::Formatter<W>) -> fmt::Result {
        let session = self.0;
        let last_sale = session.heading.last_sale.cents;
        let ranking = session.heading.ranking.number();
        let orders = session.resting.count();
        let events = session.events.count();
        let note = session.note.len();
        write!(f, "read,{last_sale},{ranking},{orders},{events},{note}")
    }
}

/// Prints a line for each order and each event that is shown. Each is written by itself, so that where the output fails
/// the lines before it are out.
pub(crate) fn print_records(rt: &HostRuntime, session: SessionFile<'_>) -> io::Result<()> {
    let orders = session.resting.count();
    for (place, order) in session.resting.iter().enumerate() {
        if is_shown(place, orders) {
            println!(rt; "order,{place},{}", ShownTerms(order.terms))?;
        }
    }
    let events = session.events.count();
    for (place, timed) in session.events.iter().enumerate() {
        if is_shown(place, events) {
            let time = timed.time;
            println!(rt; "event,{place},{time},{}", ShownEvent(timed.event))?;
        }
    }
    Ok(())
}
