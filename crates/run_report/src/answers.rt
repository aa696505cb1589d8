//! The lines that tell the answers of a run.

ghost use Rattle.std.specs.Prelude.{◌≡◌, map, take};
ghost use Rattle.std.specs.List.{flat_map};
ghost use Rattle.replay.specs.Performing.{reply};
ghost use Rattle.reporting.specs.Appending.{Appends};
ghost use Rattle.run_report.specs.Answers.{all_lines, answer_lines, event_line, fill_line, info_line, left_line, shown};

use crate::decimal::push_decimal;
use crate::line::{push_line, push_numbers};
use auction::answer::{Figures, Outcome};
use cross::allotment::Allotment;
use replay::answer::{Answer, Effect};
use std::alloc::AllocError;

/// What a line shows of an answer.
#[derive(Clone, Copy, Default)]
struct Columns {
    number: u8,
    price: u32,
    shares: u32,
}

fn columns_of(answer: Answer) -> Columns
    ensures { record { number = result.number; price = result.price; shares = result.shares } ≡ shown (reply answer) }
{
    match answer {
        Err(refusal) => Columns {
            number: refusal.number(),
            ..Columns::default()
        },
        Ok(Effect::Entered(shares) | Effect::Cancelled(shares)) => Columns {
            shares,
            ..Columns::default()
        },
        Ok(Effect::Published(figures)) => Columns {
            number: 0,
            price: figures.reference_price,
            shares: figures.paired_shares,
        },
        Ok(Effect::Crossed(outcome)) => Columns {
            number: 0,
            price: outcome.price,
            shares: outcome.executed,
        },
        Ok(Effect::Quoted | Effect::Moved) => Columns::default(),
    }
}

fn push_event(text: &mut String, place: usize, columns: Columns) -> Result<(), AllocError>
    ensures { Appends result text.old text.new (event_line place (record { number = columns.number; price = columns.price; shares = columns.shares })) }
{
    push_decimal(text, place as u64)?;
    push_numbers(
        text,
        &[
            i64::from(columns.number),
            i64::from(columns.price),
            i64::from(columns.shares),
        ],
    )
}

fn push_info(text: &mut String, figures: Figures) -> Result<(), AllocError>
    ensures { Appends result text.old text.new (info_line figures) }
{
    push_line(
        text,
        "info",
        &[
            i64::from(figures.reference_price),
            i64::from(figures.paired_shares),
            figures.imbalance,
            i64::from(figures.indicative_price),
            i64::from(figures.auction_price),
            i64::from(figures.collar_lowest),
            i64::from(figures.collar_highest),
            i64::from(figures.twice_middle),
        ],
    )
}

fn push_left(text: &mut String, outcome: Outcome) -> Result<(), AllocError>
    ensures { Appends result text.old text.new (left_line outcome) }
{
    push_line(
        text,
        "left",
        &[i64::from(outcome.ended), i64::from(outcome.released)],
    )
}

fn push_fill(text: &mut String, allotment: Allotment) -> Result<(), AllocError>
    ensures { Appends result text.old text.new (fill_line allotment) }
{
    text.push_str("fill,")?;
    push_decimal(text, allotment.place as u64)?;
    push_numbers(text, &[i64::from(allotment.fill)])
}

/// Appends a line for each allotment.
fn push_fills(text: &mut String, allotments: &[Allotment]) -> Result<(), AllocError>
    ensures { Appends result text.old text.new (flat_map fill_line allotments.now) }
{
    for allotment in allotments {
        push_fill(text, *allotment)?;
    }
    Ok(())
}

/// The first records of a list, or all where there are no more.
fn first_of(list: &[Allotment], count: usize) -> &[Allotment]
    ensures { result.now ≡ take count list.now }
{
    &list[..count.min(list.len())]
}

/// Appends the line of an event, and those that its answer adds.
pub(crate) fn push_answer(
    text: &mut String,
    place: usize,
    answer: Answer,
    list: &[Allotment],
) -> Result<(), AllocError>
    ensures { Appends result text.old text.new (answer_lines list.now place (reply answer)) }
{
    push_event(text, place, columns_of(answer))?;
    match answer {
        Ok(Effect::Published(figures)) => push_info(text, figures),
        Ok(Effect::Crossed(outcome)) => {
            push_fills(text, first_of(list, outcome.records))?;
            push_left(text, outcome)
        }
        _ => Ok(()),
    }
}

/// Appends the lines of all answers, with their places counted from 0.
pub(crate) fn push_answers(
    text: &mut String,
    answers: &[Answer],
    list: &[Allotment],
) -> Result<(), AllocError>
    ensures { Appends result text.old text.new (all_lines list.now 0 (map reply answers.now)) }
{
    for (place, answer) in answers.iter().enumerate() {
        push_answer(text, place, *answer, list)?;
    }
    Ok(())
}
