//! The rows of a table.
ghost use Rattle.std.specs.Prelude.{◌≡◌, ◌<◌, ◌%◌, length, map, IfOk};
ghost use Rattle.boxcar.specs.Table.{id_at};
ghost use Rattle.elan_table.specs.Places.{ids_of};
ghost use Rattle.elan_table.specs.Rows.{MayStand};

use crate::NoMemory;
use crate::name::Name;
use crate::row::{Row, TermRef};
use crate::spot::{Any, Long, Spot, of_rows, of_terms};
use boxcar::slot::{OnceSlot, SlotRule, Written};
use boxcar::tag::{Names, Tag};
use elan_terms::Shapes;
use std::alloc::{AllocError, Global};
use std::marker::Model;
use std::sync::Wait;
use std::sync::atomic::{AtomicU64, Ordering};

// How many rows a chunk has, and how many chunks there may be.
const CHUNK: usize = 32768;

const CHUNKS: usize = 16384;

// How many numbers are given out at once.
const RUN: u64 = 128;

/// The rows of the table of this name.
#[derive(Drop)]
pub struct Rows<N: Name> {
    chunks: Vec<OnceSlot<Vec<OnceSlot<Row<N>, Any>>, Long>>,
    root: Written<Tag>,
    next: AtomicU64,
    shapes: Shapes,
    alloc: Global,
    ghost rooted: { root.of ≡ N.root },
    ghost told: { root.value.numbers ≡ ids_of chunks.items },
    ghost many: { length chunks.items ≡ 16384 },
    ghost served: { shapes ≡ N.shapes },
}

/// So many free slots.
fn free<T: Drop, Q: SlotRule<T>>(
    alloc: Global,
    many: usize,
) -> Result<Vec<OnceSlot<T, Q>>, NoMemory>
    ensures { IfOk result (λ v. length v.items ≡ many) }
{
    let mut slots = Vec::with_capacity(alloc, many)?;
    let tag = Tag::empty();
    while slots.len() < many {
        slots.push(OnceSlot::new(&tag))?;
    }
    Ok(slots)
}

impl<N: Name> Rows<N> {
    /// What a row holds.
    pub(crate) fn row(&self, term: &TermRef<N>) -> &Row<N>
        ensures { result.now ≡ term.now.value }
    {
        let (root, spot) = term.place();
        self.root.agrees(root);
        let spot = of_rows::<N>(spot);
        let number = term.number() as usize;
        let chunk = self.chunks[number / CHUNK].value(&spot.chunk);
        chunk[number % CHUNK].value(&spot.item)
    }

    /// The operators of the terms.
    pub fn shapes(&self) -> &Shapes
        ensures { result.now ≡ N.shapes }
    {
        &self.shapes
    }

    /// The first of the next 128 numbers, which no other call answers.
    pub(crate) fn run(&self) -> u64 {
        self.next.fetch_add(RUN, Ordering::SeqCst)
    }

    #[cold]
    fn make(&self, place: usize) -> Result<(), NoMemory>
        requires { place < 16384 }
    {
        let slots = free(self.alloc, CHUNK)?;
        drop(self.chunks[place].set_written(slots));
        Ok(())
    }

    /// The chunk at that place of the directory; it is made where it is not there. It may wait for
    /// a thread that puts it there.
    fn laid<R: Wait>(
        &self,
        rt: &R,
        place: usize,
    ) -> Result<Written<Vec<OnceSlot<Row<N>, Any>>>, NoMemory>
        requires { place < 16384 }
        ensures { IfOk result (λ w. w.of ≡ id_at self.now.chunks.items place) }
    {
        if let Some(chunk) = self.chunks[place].witness() {
            return Ok(chunk);
        }
        self.make(place)?;
        for _ in rt.forever() {
            if let Some(chunk) = self.chunks[place].witness() {
                return Ok(chunk);
            }
            std::hint::spin_loop();
        }
        unreachable!()
    }

    fn put_at<R: Wait>(&self, rt: &R, number: u32, row: Row<N>) -> Result<TermRef<N>, NoMemory>
        requires low { number < 536870912 }
        requires term { MayStand N.shapes row }
        ensures { IfOk result (λ t. t.value ≡ row) }
    {
        let place = number as usize / CHUNK;
        let chunk = self.laid(rt, place)?;
        let slot = &self.chunks[place].value(&chunk)[number as usize % CHUNK];
        match slot.set_written(row) {
            Err(_) => Err(AllocError),
            Ok(item) => {
                let spot = Spot { chunk, item };
                Ok(TermRef::new(number, self.root.again(), of_terms::<N>(&spot).again()))
            }
        }
    }

    /// A row of this number, where there is none yet.
    pub(crate) fn put<R: Wait>(
        &self,
        rt: &R,
        number: u64,
        row: Row<N>,
    ) -> Result<TermRef<N>, NoMemory>
        requires { MayStand N.shapes row }
        ensures { IfOk result (λ t. t.value ≡ row) }
    {
        if number < 536_870_912 {
            self.put_at(rt, number as u32, row)
        } else {
            Err(AllocError)
        }
    }
}

/// Rows that have no name yet: there is none. Contracts see the slot that will tell where they are,
/// and the operators.
#[derive(Drop)]
pub struct Blank {
    root: OnceSlot<Tag, Any>,
    shapes: Shapes,
}

impl Model for Blank {
    ghost use Rattle.std.specs.Prelude.{ℕ};
    ghost use Rattle.std.specs.Coded.{codes};
    ghost use base.Stored.{coded×, coded_ℕ};
    ghost use Rattle.elan_terms.specs.declared.tree.Shapes.{Shapes};
    ghost use Rattle.elan_terms.specs.contracts.tree.Shapes as operators;

    ghost Value = { ℕ × Shapes };

    ghost coded = { coded× coded_ℕ (Prim.hlevel (codes, operators.the_row.coded)) };

    ghost view = { λ b. (b.root.id, b.shapes) };
}

/// How the slots of a directory are told.
struct Slots;

impl<T, Q: SlotRule<T>> Names<Vec<OnceSlot<T, Q>>> for Slots {
    ghost use Rattle.elan_table.specs.Places.{ids_of};

    ghost numbers = { λ v. ids_of v.items };
}

impl Blank {
    /// No row.
    pub fn new(shapes: Shapes) -> Blank
        ensures { result.1 ≡ shapes }
    {
        Blank {
            root: OnceSlot::new(&Tag::empty()),
            shapes,
        }
    }

    /// The rows under the name that stands for them.
    pub fn named<N: Name>(self, alloc: Global) -> Result<Rows<N>, NoMemory>
        requires { self ≡ (N.root, N.shapes) }
    {
        let chunks: Vec<OnceSlot<Vec<OnceSlot<Row<N>, Any>>, Long>> = free(alloc, CHUNKS)?;
        let tag = Tag::of::<Vec<OnceSlot<Vec<OnceSlot<Row<N>, Any>>, Long>>, Slots>(&chunks);
        let Blank { root, shapes } = self;
        match root.set_written(tag) {
            Err(_) => Err(AllocError),
            Ok(root) => Ok(Rows {
                chunks,
                root,
                next: AtomicU64::new(0),
                shapes,
                alloc,
            }),
        }
    }
}
