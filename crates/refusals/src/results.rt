//! The results of tickets, and the collector that takes them.
ghost use Rattle.life_answer.specs.Questions.{IsAnswered};

use crate::call;
use crate::calls::promised;
use census_book::{Collector, Done, Offer};
use census_bundle::{Bundle, Ticket, read_bundle};
use census_crew::work;
use life_answer::{Answer, Outcome, Question};
use std::alloc::{AllocError, Global};

const SETTLES: Question = Question::Settles {
    bound: 10,
    cells: None,
};

const OBJECTS: Question = Question::Objects {
    bound: 10,
    cells: None,
    near: false,
    horizon: 10,
};

const TEXT: &[u8] = b"@folder f
@file a
x = 2, y = 2
2o$2o!
@file b
x = 3, y = 1
3o!
@file c
x = 2, y = 2
2o$2o!
";

// The code of the second pattern.
const BLINKER: &[u8] = b"xp2_7";

// The text that is released before any result has come.
const START: &[u8] = b"open 1 3 f\n";

// The text that is released once the first and the third result have come.
const FIRST: &[u8] = b"open 1 3 f\nline 1 1 ok B3/S23 4 0 1 0 0 xs4_33 a\n";

const LAST: &[u8] = b"open 1 3 f
line 1 1 ok B3/S23 4 0 1 0 0 xs4_33 a
line 1 2 ok B3/S23 3 0 2 0 0 xp2_7 b
line 1 3 ok B3/S23 4 0 1 0 0 xs4_33 c
code 1 B3/S23 xs4_33 2
code 1 B3/S23 xp2_7 1
close 1 3 3 0 0
end 1 3
";

// The number of each ticket, and the texts that are released before its result has come and after it.
const OFFERS: &[(u32, &str, [&[u8]; 2])] = &[
    (
        3,
        "Collector::offer, of a result that waits",
        [START, START],
    ),
    (1, "Collector::offer, of the first result", [START, FIRST]),
    (2, "Collector::offer, of the last result", [FIRST, LAST]),
];

// The result of a pattern of the first collection.
fn done<'a>(
    alloc: Global,
    bundle: &'a Bundle,
    number: u32,
    question: Question,
) -> Result<Done<'a>, AllocError>
    requires { IsAnswered question }
{
    let ticket = Ticket { folder: 1, number };
    match bundle.entry(ticket) {
        Some(entry) => work(alloc, ticket, entry, question),
        None => Err(AllocError),
    }
}

// True where the pattern becomes a blinker, alone or as the first of several parts.
fn is_blinker(done: &Done<'_>) -> bool {
    match done.answer() {
        Answer::Found { finding, .. } => match &finding.outcome {
            Outcome::Recurs { code, .. } => code.as_slice() == BLINKER,
            outcome => outcome
                .parts()
                .first()
                .is_some_and(|part| part.code.as_slice() == BLINKER),
        },
        Answer::Refused(_) => false,
    }
}

/// Calls that compute the result of a pattern.
pub fn call_work(rt: &impl Print, alloc: Global) -> Option<()> {
    let bundle = read_bundle(alloc, TEXT).ok()?;
    let settled = call!(
        rt,
        "work, until it settles",
        done(alloc, &bundle, 2, SETTLES),
    )?;
    promised(is_blinker(&settled))?;
    let apart = call!(
        rt,
        "work, for its objects",
        done(alloc, &bundle, 2, OBJECTS),
    )?;
    promised(is_blinker(&apart))
}

// A collector, and a result that it has not taken.
#[derive(Drop)]
struct Desk<'a> {
    collector: Collector<'a>,
    result: Option<Done<'a>>,
}

// Offers the result, which is returned where there is no room for it.
fn offer(desk: &mut Desk<'_>) -> Result<Offer, AllocError> {
    let Some(result) = desk.result.take() else {
        return Err(AllocError);
    };
    match desk.collector.offer(result) {
        Ok(offer) => Ok(offer),
        Err(no_room) => {
            desk.result = Some(no_room.done);
            Err(AllocError)
        }
    }
}

// A call that offers the result of a ticket, with the texts that are released before it and after it.
fn call_offer<'a>(
    rt: &impl Print,
    desk: &mut Desk<'a>,
    done: Done<'a>,
    name: &str,
    released: [&[u8]; 2],
) -> Option<()> {
    desk.result = Some(done);
    let offer = call!(
        rt,
        name,
        offer(desk),
        desk.collector.unsent() == released[0] && desk.result.is_some(),
    )?;
    promised(offer == Offer::Taken && desk.collector.unsent() == released[1])
}

/// Calls that make a collector and offer the results of tickets, which come in the order 3, 1, 2.
pub fn call_collector(rt: &impl Print, alloc: Global) -> Option<()> {
    let bundle = read_bundle(alloc, TEXT).ok()?;
    let collector = call!(
        rt,
        "Collector::new",
        Collector::new(alloc, &bundle, SETTLES),
    )?;
    promised(collector.unsent() == START)?;
    let mut desk = Desk {
        collector,
        result: None,
    };
    for (number, name, released) in OFFERS {
        let done = done(alloc, &bundle, *number, SETTLES).ok()?;
        call_offer(rt, &mut desk, done, name, *released)?;
    }
    Some(())
}
