//! Places of a list, found by hashes of what is there.
ghost use Rattle.std.specs.Prelude.{◌<◌};

use std::alloc::{AllocError, Global};

/// The number of chains at first.
const FIRST_CHAINS: usize = 64;

/// Places of a list in chains, as in a hash table: each chain is for a part of all mixed numbers (hashes). Whatever it holds,
/// a chain goes to lower places and ends with 0. What is at a place must be compared before it is used.
#[derive(Drop)]
pub struct Chains {
    /// The first place of each chain.
    heads: Vec<u32>,
    /// The place that follows each one in its chain.
    nexts: Vec<u32>,
}

impl Chains {
    /// Chains without a place but 0.
    pub fn new(alloc: Global) -> Result<Chains, AllocError> {
        let mut chains = Chains {
            heads: Vec::new(alloc),
            nexts: Vec::new(alloc),
        };
        chains.clear(FIRST_CHAINS)?;
        Ok(chains)
    }

    /// Removes all places, and makes this many chains.
    pub fn clear(&mut self, chains: usize) -> Result<(), AllocError> {
        self.heads.clear();
        self.heads.resize(chains, 0)?;
        self.nexts.clear();
        Ok(())
    }

    /// The number of the chain that has the places of a mixed number.
    fn chain_of(&self, mixed: u64) -> usize {
        let chains = self.heads.len() as u64;
        ((mixed >> 32).wrapping_mul(chains) >> 32) as usize
    }

    /// The first place of a mixed number.
    pub fn first(&self, mixed: u64) -> u32 {
        match self.heads.get(self.chain_of(mixed)) {
            Some(place) => *place,
            None => 0,
        }
    }

    /// The place that follows one in its chain.
    pub fn after(&self, place: u32) -> u32
        ensures { 0 < place → result < place }
    {
        match self.nexts.get(place as usize) {
            Some(next) if *next < place => *next,
            _ => 0,
        }
    }

    /// True where there are more places than chains.
    pub fn is_full(&self) -> bool {
        self.nexts.len() > self.heads.len()
    }

    /// Puts a place that is greater than all others at the head of a chain.
    pub fn put(&mut self, place: u32, mixed: u64) -> Result<(), AllocError> {
        let chain = self.chain_of(mixed);
        self.nexts.resize(place as usize, 0)?;
        match self.heads.get_mut(chain) {
            Some(head) => {
                self.nexts.push(*head)?;
                *head = place;
            }
            None => {}
        }
        Ok(())
    }
}
