//! The pool against plain lists, and dues in order.
ghost use Rattle.std.specs.Prelude.{◌≡◌, ◌<◌, length};

use crate::{Act, Due, Dues, Pool, Region};
use four_state::{Bit, Vec4};
use std::alloc::{AllocError, Global};
use std::process::Abort;
use std::test::Fail;

const QUEUES: u32 = 3;

// What a pool's queues hold, in one plain list: each item with its queue, those of one queue in
// their order.
type Pairs = Vec<(u32, u32)>;

fn list_of(alloc: Global, pairs: &[(u32, u32)], q: u32) -> Result<Vec<u32>, AllocError> {
    pairs
        .iter()
        .filter(|pair| pair.0 == q)
        .map(|pair| pair.1)
        .collect(alloc)
}

fn take_pair(pairs: &mut Pairs, q: u32, k: usize) -> Option<u32> {
    let mut left = k;
    for i in 0..pairs.len() {
        if pairs[i].0 != q {
            continue;
        }
        if left == 0 {
            return Some(pairs.remove(i).1);
        }
        left -= 1;
    }
    None
}

fn move_pairs(
    alloc: Global,
    pairs: &[(u32, u32)],
    from: u32,
    to: u32,
) -> Result<Pairs, AllocError> {
    let others = pairs.iter().copied().filter(|pair| pair.0 != from);
    let moved = pairs
        .iter()
        .filter(|pair| pair.0 == from)
        .map(|pair| (to, pair.1));
    others.chain(moved).collect(alloc)
}

fn check_queue(
    rt: &impl Abort,
    alloc: Global,
    pool: &Pool<u32>,
    pairs: &[(u32, u32)],
    q: u32,
) -> Result<(), Fail>
    requires { q < length pool.now.queues }
{
    let list = list_of(alloc, pairs, q)?;
    assert_eq!(rt; pool.len(q), list.len());
    assert_eq!(rt; pool.has_any(q), !list.is_empty());
    assert_eq!(rt; pool.first(q), list.first().copied());
    assert_eq!(rt; pool.items(alloc, q)?.as_slice(), list.as_slice());
    for k in 0..pool.len(q) {
        assert_eq!(rt; Some(pool.item(q, k)), list.get(k).copied());
    }
    Ok(())
}

fn push(pool: &mut Pool<u32>, pairs: &mut Pairs, q: u32, e: u32) -> Result<(), Fail>
    requires { (length pool.old.queues ≡ QUEUES) × (q < QUEUES) }
    ensures { length pool.new.queues ≡ QUEUES }
{
    if pool.spare() > 0 {
        pool.push_back(q, e);
        pairs.push((q, e))?;
    }
    Ok(())
}

fn pop(rt: &impl Abort, pool: &mut Pool<u32>, pairs: &mut Pairs, q: u32) -> Result<(), Fail>
    requires { (length pool.old.queues ≡ QUEUES) × (q < QUEUES) }
    ensures { length pool.new.queues ≡ QUEUES }
{
    let popped = pool.pop_front(q);
    assert_eq!(rt; popped, take_pair(pairs, q, 0));
    Ok(())
}

fn take(
    rt: &impl Abort,
    pool: &mut Pool<u32>,
    pairs: &mut Pairs,
    q: u32,
    e: u32,
) -> Result<(), Fail>
    requires { (length pool.old.queues ≡ QUEUES) × (q < QUEUES) }
    ensures { length pool.new.queues ≡ QUEUES }
{
    let k = e as usize;
    if k < pool.len(q) {
        let taken = pool.take_at(q, k);
        assert_eq!(rt; Some(taken), take_pair(pairs, q, k));
    }
    Ok(())
}

fn remove(
    rt: &impl Abort,
    pool: &mut Pool<u32>,
    pairs: &mut Pairs,
    q: u32,
    e: u32,
) -> Result<(), Fail>
    requires { (length pool.old.queues ≡ QUEUES) × (q < QUEUES) }
    ensures { length pool.new.queues ≡ QUEUES }
{
    let removed = pool.remove_first(q, e);
    let place = pairs.iter().position(|pair| *pair == (q, e));
    assert_eq!(rt; removed, place.is_some());
    if let Some(place) = place {
        pairs.remove(place);
    }
    Ok(())
}

fn move_on(alloc: Global, pool: &mut Pool<u32>, pairs: &mut Pairs, q: u32) -> Result<(), Fail>
    requires { (length pool.old.queues ≡ QUEUES) × (q < QUEUES) }
    ensures { length pool.new.queues ≡ QUEUES }
{
    let to = (q + 1) % QUEUES;
    pool.move_all(q, to);
    *pairs = move_pairs(alloc, pairs.as_slice(), q, to)?;
    Ok(())
}

fn step(
    rt: &impl Abort,
    alloc: Global,
    pool: &mut Pool<u32>,
    pairs: &mut Pairs,
    random: u32,
) -> Result<(), Fail>
    requires { length pool.old.queues ≡ QUEUES }
    ensures { length pool.new.queues ≡ QUEUES }
{
    let q = (random >> 8) % QUEUES;
    let e = (random >> 16) % 4;
    match random >> 29 {
        0 => pop(rt, pool, pairs, q),
        1 => move_on(alloc, pool, pairs, q),
        2 => take(rt, pool, pairs, q, e),
        3 => remove(rt, pool, pairs, q, e),
        _ => push(pool, pairs, q, e),
    }
}

#[test]
fn pool_is_as_plain_lists(rt: HostRuntime) -> Result<(), Fail> {
    let alloc = rt.alloc();
    let mut pool = Pool::new(alloc, QUEUES)?;
    pool.reserve(8)?;
    let mut pairs = Vec::new(alloc);
    let mut random: u32 = 1;
    'calls: for _ in 0..1000 {
        random = random.wrapping_mul(1_664_525).wrapping_add(1_013_904_223);
        step(&rt, alloc, &mut pool, &mut pairs, random)?;
        assert_eq!(rt; pool.spare() + pairs.len(), 8);
        check_queue(&rt, alloc, &pool, pairs.as_slice(), 0)?;
        check_queue(&rt, alloc, &pool, pairs.as_slice(), 1)?;
        check_queue(&rt, alloc, &pool, pairs.as_slice(), 2)?;
    }
    Ok(())
}

fn late() -> Due {
    Due {
        time: u64::MAX,
        region: Region::Active,
        act: Act::Update {
            item: 1,
            word: 2,
            offset: -3,
            value: Vec4::splat(Bit::One, 4),
        },
    }
}

fn early() -> Due {
    Due {
        time: u64::MAX - 1,
        region: Region::Nonblocking,
        act: Act::Eval(9),
    }
}

#[test]
fn dues_keep_their_acts(rt: HostRuntime) -> Result<(), Fail> {
    let mut dues = Dues::from_slice(rt.alloc(), &[late()])?;
    dues.push(early())?;
    dues.sort()?;
    assert_eq!(rt; dues.len(), 2);
    assert_eq!(rt; dues.as_slice().first().copied(), Some(early()));
    assert_eq!(rt; dues.as_slice().get(1).copied(), Some(late()));
    assert!(rt; Dues::new(rt.alloc()).is_empty());
    assert!(rt; early().is_in(Region::Nonblocking, u64::MAX - 1));
    assert!(rt; !early().is_in(Region::Active, u64::MAX - 1));
    assert_eq!(rt; early().turn(), 3 * u128::from(u64::MAX) - 1);
    Ok(())
}
