//! Reports on single patterns.

use crate::beginnings::{ACORN, GLIDER};
use census_facts::{Form, Names, read_names};
use census_identify::{Inquiry, Onlooker, block, identify};
use life_plane::Unobserved;
use life_text::RleFault;
use std::sync::atomic::{AtomicU32, Ordering};
use std::test::Fail;
use watched::Streams;

const NAMES_TEXT: &[u8] = b"xq4_153\tglider\n";

const FAULTY: &[u8] = b"x = 3, y = 3\n3b?!";

const NO_FILE: &[u8] = b"census: no such file.rle: ";

const INQUIRY: Inquiry = Inquiry {
    bound: 100,
    cells: 1_000_000,
    near: false,
    horizon: 1_000,
    form: Form::Lines,
};

const NAMED: &str =
    "file a b.rle\nrule B3/S23\npopulation 5\nbox 3 3\nonset 0\nperiod 4\ndisplacement 1 1\napgcode xq4_153\nname glider\n";

#[test]
fn a_text_has_its_block(rt: HostRuntime) -> Result<(), Fail> {
    let alloc = rt.alloc();
    let names = match read_names(alloc, NAMES_TEXT)? {
        Ok(names) => names,
        Err(_line) => Names::none(alloc),
    };
    let is_named = match block(
        alloc,
        &Unobserved,
        &names,
        Some(b"a b.rle"),
        GLIDER,
        INQUIRY,
    )? {
        Ok(block) => block.as_slice() == NAMED.as_bytes(),
        Err(_fault) => false,
    };
    assert!(rt; is_named);
    let broken = block(alloc, &Unobserved, &names, None, FAULTY, INQUIRY)?;
    assert!(rt; broken.err() == Some(RleFault::BadChar { at: 15 }));
    Ok(())
}

// The latest generation of standard input that was reported.
#[derive(Drop)]
struct Furthest {
    generation: AtomicU32,
}

impl Onlooker for Furthest {
    fn reached(&self, word: &str, generation: u32) {
        if word == "-" {
            self.generation.fetch_max(generation, Ordering::SeqCst);
        }
    }
}

const WORDS: &[&str] = &["no such file.rle", "-"];

const TOLD: &str = "rule B3/S23\npopulation 7\nbox 7 3\nunresolved 100\n";

#[test]
fn an_onlooker_hears_generations_up_to_three_times_the_bound(rt: HostRuntime) -> Result<(), Fail> {
    let mut streams = Streams::new(ACORN, Vec::new(rt.alloc()), Vec::new(rt.alloc()));
    let furthest = Furthest {
        generation: AtomicU32::new(0),
    };
    let names = Names::none(rt.alloc());
    let status = identify(
        &rt,
        rt.alloc(),
        &furthest,
        INQUIRY,
        &names,
        WORDS,
        &mut streams,
    );
    assert!(rt; status == 4);
    assert!(rt; furthest.generation.load(Ordering::SeqCst) == 300);
    let (_, output, errors) = streams.into_inner();
    assert!(rt; output.as_slice() == TOLD.as_bytes());
    assert!(rt; errors.as_slice().starts_with(NO_FILE));
    Ok(())
}
