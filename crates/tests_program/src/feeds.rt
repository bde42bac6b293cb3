//! Feeds from which hands take tickets, in one thread and in several.

use census_bundle::{Bundle, Ticket};
use census_crew::Feed;
use std::alloc::Global;
use std::sync::Mutex;
use std::test::*;
use std::thread;

// A bundle of folders with these numbers of patterns.
fn bundle(alloc: Global, sizes: &[u32]) -> Result<Bundle, Fail> {
    let mut bundle = Bundle::empty(alloc);
    for size in sizes {
        bundle.add_folder(b"folder")?;
        for _ in 0..*size {
            bundle.add_entry(b"pattern", b"3o!")?;
        }
    }
    Ok(bundle)
}

#[test]
fn a_feed_closed_at_once_has_all_tickets_left(rt: HostRuntime) -> Result<(), Fail> {
    let (feed, hands) = Feed::fill(rt.alloc(), &bundle(rt.alloc(), &[2, 1])?, 2)?;
    assert!(rt; hands.len() == 2 && feed.close(hands) == 3);
    Ok(())
}

#[test]
fn four_threads_take_each_of_5000_tickets_once(rt: HostRuntime) -> Result<(), Fail> {
    let (feed, hands) = Feed::fill(rt.alloc(), &bundle(rt.alloc(), &[3000, 0, 2000])?, 4)?;
    let tickets = Mutex::new(Vec::new(rt.alloc()));
    let shared = &tickets;
    let host = &rt;
    thread::scope(thread::scope_env(), &rt, |scope| {
        for hand in hands {
            let _ = scope.spawn(move || {
                let mut hand = hand;
                for _ in 0..5000 {
                    let Some(ticket) = hand.take(host) else {
                        break;
                    };
                    let _ = shared.lock(host).push((ticket.folder, ticket.number));
                }
            });
        }
    });
    drop(feed);
    let mut all = tickets.into_inner();
    all.as_mut_slice().sort(rt.alloc())?;
    let mut expected = Vec::new(rt.alloc());
    for number in 0..3000 {
        expected.push((1, number + 1))?;
    }
    for number in 0..2000 {
        expected.push((3, number + 1))?;
    }
    assert!(rt; all.as_slice() == expected.as_slice());
    Ok(())
}
