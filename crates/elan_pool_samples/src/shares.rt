//! Two seats share what one of them put.
ghost use Rattle.std.specs.Prelude.{◌≡◌, length};
ghost use Rattle.elan_pool.specs.Deques.{deques_of};

use elan_pool::deques::Deques;
use elan_pool::ends::{Ends, take_by};
use elan_pool::memory::MemoryEnds;
use elan_pool::pool::Pool;
use elan_pool::pool_name::PoolName;
use elan_text::NoMemory;
use elan_tree::name::Name;
use elan_tree::posts::{Blank, Posts};
use std::alloc::Global;
use std::marker::Brand;
use std::sync::Wait;
use std::test::Fail;
use std::thread;
use std::thread::Threads;

/// Seat 0 puts 1, 2 and 3. Then seat 1 takes, in a thread of its own, then seat 0. What they took, and what was left.
fn shared_out<N: Name + Send + Sync, P: PoolName + Send + Sync, R: Threads + Wait + Sync>(
    rt: &R,
    alloc: Global,
    posts: &Posts<u64, N>,
    deques: Deques<u64, N>,
) -> Result<(Vec<u64>, Vec<u64>), NoMemory>
    requires { (deques_of deques ≡ P.deques) × (length P.deques ≡ 2) }
{
    let (pool, seats) = Pool::<u64, N, P>::new(alloc, deques)?;
    let mut seats = seats;
    'puts: for number in 1..4 {
        let _ = pool.put(&mut seats[0], posts.post(rt, number)?);
    }
    let mut taken = Vec::new(alloc);
    let other = &mut seats[1];
    let lent = &pool;
    let (found, _none) = thread::join(rt, move || lent.take(other), || ());
    if let Some(spot) = found {
        taken.push(*posts.branch(&spot))?;
    }
    if let Some(spot) = pool.take(&mut seats[0]) {
        taken.push(*posts.branch(&spot))?;
    }
    let rest = pool.close(seats)?.left;
    let mut left = Vec::new(alloc);
    'left: for spot in rest.iter() {
        left.push(*posts.branch(spot))?;
    }
    Ok((taken, left))
}

/// The same, under a name for the pool.
fn shared<N: Name + Send + Sync, R: Threads + Wait + Sync>(
    rt: &R,
    alloc: Global,
    blank: Blank<u64>,
) -> Result<(Vec<u64>, Vec<u64>), NoMemory>
    requires { blank ≡ N.shelves }
{
    let posts = blank.named::<N>();
    let deques = Deques::new(alloc, 2)?;
    shared_out::<N, Brand, R>(rt, alloc, &posts, deques)
}

#[test]
fn a_seat_steals_the_first_spot_of_another(rt: HostRuntime) -> Result<(), Fail> {
    let (taken, left) = shared::<Brand, _>(&rt, rt.alloc(), Blank::new(rt.alloc())?)?;
    assert_eq!(rt; taken.as_slice(), [1, 2].as_slice());
    assert_eq!(rt; left.as_slice(), [3].as_slice());
    Ok(())
}

#[test]
fn where_both_deques_are_empty_both_are_missed(rt: HostRuntime) -> Result<(), Fail> {
    let mut deques = Vec::new(rt.alloc());
    deques.push(Vec::new(rt.alloc()))?;
    deques.push(Vec::new(rt.alloc()))?;
    let mut ends = MemoryEnds::<u64, Brand>::new(rt.alloc(), 0, deques)?;
    assert!(rt; take_by(&mut ends).is_none());
    assert_eq!(rt; ends.misses(0), 1);
    assert_eq!(rt; ends.misses(1), 1);
    Ok(())
}
