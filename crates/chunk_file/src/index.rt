//! Where the chunks of each engine and partition stand.
ghost use Rattle.std.specs.Prelude.{◌≡◌, ◌+◌, ◌*◌, ◌^◌, ◌<◌, Some, length, map, replicate, slice_get, IfOk, OnOk, OnErr};
ghost use Rattle.chunk_file.specs.Places.{places_of, total_of, with_place, no_places};

use ports::Memory;
use std::alloc::Global;
use std::marker::Model;

/// No index has more places in all, so that each place of a store has a number below 2^31.
pub const MOST_PLACES: u64 = 2_147_483_640;

/// The engines and the partitions that an index has lists for.
const ENGINES: u32 = 8;

const PARTITIONS: u32 = 64;

/// Where a chunk stands.
#[derive(Clone, Copy, PartialEq, Eq, Debug)]
pub struct Place {
    /// The worker whose lane has the chunk, 0 to 7; 0 for a graph device.
    pub lane: u32,
    /// The chunk's first byte.
    pub at: u64,
}

/// For each engine, 0 to 7, and each partition, 0 to 63, the places of its chunks, numbered from 0.
#[derive(Drop)]
pub struct Index {
    places: Vec<Vec<Place>>,
    total: u64,
}

impl Model for Index {
    ghost use Rattle.std.specs.Prelude.{List};
    ghost use Rattle.chunk_file.specs.declared.index.Place.{Place};

    ghost Value = { List (List Place) };

    ghost use Rattle.chunk_file.specs.Inside.{lists_in, IsIndex};

    ghost view = { lists_in };

    ghost invariant = { IsIndex };
}

impl Index {
    /// An index without places.
    pub fn new(alloc: Global) -> Result<Index, Memory>
        ensures { IfOk result (λ index. index ≡ replicate 512 no_places) }
    {
        let mut places = Vec::new(alloc);
        'lists: for _ in 0..ENGINES * PARTITIONS {
            places.push(Vec::new(alloc))?;
        }
        Ok(Index { places, total: 0 })
    }

    /// The number of places of an engine and a partition.
    pub fn len(&self, engine: u32, partition: u32) -> u64
        requires engine { engine < 8 }
        requires partition { partition < 64 }
        ensures { result ≡ length (places_of self.now engine partition) }
    {
        self.places[list_of(engine, partition)].len() as u64
    }

    /// The place with this number.
    pub fn place(&self, engine: u32, partition: u32, t: u64) -> Place
        requires engine { engine < 8 }
        requires partition { partition < 64 }
        requires t { t < length (places_of self.now engine partition) }
        ensures { slice_get (places_of self.now engine partition) t ≡ Some result }
    {
        self.places[list_of(engine, partition)][t as usize]
    }

    /// The number of all places.
    pub fn total(&self) -> u64
        ensures total { result ≡ total_of self.now }
        ensures lists { length self.now ≡ 512 }
    {
        self.total
    }

    /// Takes all places out. What memory they had stays for others.
    pub fn clear(&mut self)
        ensures { self.new ≡ replicate 512 no_places }
    {
        clear_all(&mut self.places);
        self.total = 0;
    }

    /// Adds a place behind those of its engine and partition. Where there is no memory nothing changes.
    pub fn add(&mut self, engine: u32, partition: u32, place: Place) -> Result<(), Memory>
        requires engine { engine < 8 }
        requires partition { partition < 64 }
        requires room { length (places_of self.old engine partition) < 2 ^ 31 }
        ensures ok { OnOk result (self.new ≡ with_place self.old engine partition place) }
        ensures err { OnErr result (self.new ≡ self.old) }
    {
        self.places[list_of(engine, partition)].push(place)?;
        self.total += 1;
        Ok(())
    }
}

/// The number of the list of an engine and a partition.
fn list_of(engine: u32, partition: u32) -> usize
    requires engine { engine < 8 }
    requires partition { partition < 64 }
    ensures { result ≡ 64 * engine + partition }
{
    (PARTITIONS * engine + partition) as usize
}

/// Empties the lists of all engines and partitions.
fn clear_all(places: &mut Vec<Vec<Place>>)
    requires { length places.old.items ≡ 512 }
    ensures { map (λ v. v.items) places.new.items ≡ replicate 512 no_places }
{
    'lists: for list in 0..ENGINES * PARTITIONS {
        places[list as usize].clear();
    }
}
