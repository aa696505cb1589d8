//! The run of a session's events.

ghost use Rattle.std.specs.Prelude.{◌≡◌, map, length, take, IfOk, MatchResult};
ghost use Rattle.market.specs.RankingNames.{ranking_number};
ghost use Rattle.replay.specs.Performing.{reply};
ghost use Rattle.replay.specs.Replaying.{Fails, Ran};
ghost use Rattle.auction.specs.Rows.{accepted};
ghost use Rattle.replay.specs.Runs.{after, answers, asked, first_state};
ghost use Rattle.session.specs.Records.{events_in, orders_in};
ghost use Rattle.run_report.specs.Sessions.{asked_with, filed_orders, ranking_of};

use auction::auction_book::AuctionBook;
use book::Book;
use cross::allotment::Allotment;
use cross::ranking::{ByDisplay, ByShares, Ranking};
use market::ranking::RankingName;
use replay::answer::{Answer, Effect};
use replay::replay;
use replay::step::{Failure, Step};
use session::file::SessionFile;
use session::heading::Heading;
use session::resting::FiledBook;
use std::alloc::{AllocError, Global};

/// Runs the calls under the ranking that a heading names.
fn replay_by<F: Book>(
    ranking: RankingName,
    book: &mut AuctionBook,
    last_sale: u32,
    steps: &[Step<F>],
    list: &mut [Allotment],
    given: &mut [Answer],
) -> Result<(), Failure>
    ensures { MatchResult result (λ _. Ran (ranking_of (ranking_number ranking)) (first_state last_sale list.old) (map (asked F.Book.orders) steps.now) (map reply (take (length steps.now) given.new)) (accepted book.new) list.new) (Fails last_sale (length steps.now) (length given.old)) }
{
    // A rule of the project: a ranking carries its number, and is chosen by it, which a `match` on the name would leave aside.
    // Each report chooses by itself: what is chosen is a type, and no closure is generic over one.
    if ranking.number() == ByDisplay::NUMBER {
        replay::<F, ByDisplay>(book, last_sale, steps, list, given)
    } else {
        replay::<F, ByShares>(book, last_sale, steps, list, given)
    }
}

/// The events of an accepted file as calls, each with the resting orders as its filed book.
fn steps_of<'a>(
    heap: Global,
    session: &SessionFile<'a>,
) -> Result<Vec<Step<FiledBook<'a>>>, AllocError>
    ensures { IfOk result (λ v. map (asked filed_orders) v.items ≡ map (asked_with (orders_in session.now.resting.records.now)) (events_in session.now.events.records.now)) }
{
    let filed = session.resting;
    session
        .events
        .iter()
        .map(|timed| Step {
            time: timed.time,
            event: timed.event,
            filed,
        })
        .collect(heap)
}

/// How the events of an accepted file are answered. It fails only for want of memory.
pub(crate) fn answers_of(
    heap: Global,
    session: &SessionFile<'_>,
    list: &mut [Allotment],
) -> Result<Vec<Answer>, AllocError>
    ensures { IfOk result (λ v. (map reply v.items ≡ answers (ranking_of (ranking_number session.now.heading.ranking)) (first_state session.now.heading.last_sale.cents list.old) (map (asked_with (orders_in session.now.resting.records.now)) (events_in session.now.events.records.now))) × (list.new ≡ (after (ranking_of (ranking_number session.now.heading.ranking)) (first_state session.now.heading.last_sale.cents list.old) (map (asked_with (orders_in session.now.resting.records.now)) (events_in session.now.events.records.now))).list)) }
{
    let mut book = AuctionBook::new(heap)?;
    let steps = steps_of(heap, session)?;
    // Filled before it is known: `replay` gets no memory, and writes its answers into a list.
    let mut given = vec![in heap; Ok(Effect::Quoted); steps.len()]?;
    let Heading { last_sale, ranking } = session.heading;
    replay_by(
        ranking,
        &mut book,
        last_sale.cents,
        &steps,
        list,
        &mut given,
    )
    .unwrap();
    Ok(given)
}
