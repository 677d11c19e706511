//! The wheel by hand, and at the ends of its blocks and of time.
use crate::Wheel;
use event_pool::{Act, Agenda, Due, Region, Settled};
use std::alloc::{AllocError, Global};
use std::process::Abort;
use std::test::Fail;

fn run(time: u64, region: Region, serial: u64) -> Due {
    Due {
        time,
        region,
        act: Act::Run { serial, key: 0 },
    }
}

fn serial_of(due: &Due) -> u64 {
    match due.act {
        Act::Run { serial, .. } => serial,
        _ => 0,
    }
}

fn empty_wheel(alloc: Global, room: usize) -> Result<Wheel, AllocError> {
    let mut wheel = Wheel::new(alloc)?;
    wheel.reserve(room)?;
    Ok(wheel)
}

fn put<A: Agenda>(agenda: &mut A, due: Due) -> bool {
    let now = agenda.now();
    if agenda.spare() == 0 || due.time < now {
        return false;
    }
    if due.time > now && due.region == Region::Inactive {
        return false;
    }
    agenda.put(due);
    true
}

fn settle<A: Agenda>(agenda: &mut A) -> Settled {
    let found = agenda.settle();
    if agenda.pending() == 0 {
        return found;
    }
    if let Settled::TimeEnds = found {
        agenda.advance();
    }
    found
}

fn take_first<A: Agenda>(agenda: &mut A) -> Option<u64> {
    if agenda.active_len() == 0 {
        return None;
    }
    Some(serial_of(&agenda.take()))
}

fn take_nth<A: Agenda>(agenda: &mut A, k: usize) -> Option<u64> {
    if k < agenda.active_len() {
        return Some(serial_of(&agenda.take_nth(k)));
    }
    None
}

// The next due, with the time at which it is taken.
fn next<A: Agenda>(agenda: &mut A) -> Option<(u64, u64)> {
    settle(agenda);
    settle(agenda);
    let serial = take_first(agenda)?;
    Some((agenda.now(), serial))
}

#[test]
fn overflow_stays_before_later_near_dues(rt: HostRuntime) -> Result<(), Fail> {
    let mut wheel = empty_wheel(rt.alloc(), 8)?;
    for (time, serial) in [(257, 3), (256, 2), (255, 1), (1, 4)] {
        assert!(rt; put(&mut wheel, run(time, Region::Active, serial)));
    }
    assert_eq!(rt; next(&mut wheel), Some((1, 4)));
    assert!(rt; put(&mut wheel, run(1 + 256, Region::Active, 5)));
    assert_eq!(rt; next(&mut wheel), Some((255, 1)));
    assert_eq!(rt; next(&mut wheel), Some((256, 2)));
    assert!(rt; put(&mut wheel, run(256 + 1, Region::Active, 6)));
    for serial in [3, 5, 6] {
        assert_eq!(rt; next(&mut wheel), Some((257, serial)));
    }
    assert_eq!(rt; next(&mut wheel), None);
    assert_eq!(rt; settle(&mut wheel), Settled::Empty);
    Ok(())
}

#[test]
fn the_last_blocks_are_as_any_other(rt: HostRuntime) -> Result<(), Fail> {
    let (last, before) = (u64::MAX, u64::MAX - 256);
    let mut wheel = empty_wheel(rt.alloc(), 7)?;
    for due in [
        run(last, Region::Nonblocking, 1),
        run(last, Region::Active, 2),
        run(before, Region::Nonblocking, 3),
        run(before + 1, Region::Active, 4),
        run(0, Region::Nonblocking, 5),
        run(0, Region::Inactive, 6),
        run(before, Region::Active, 7),
    ] {
        assert!(rt; put(&mut wheel, due));
    }
    let listed = [
        run(0, Region::Inactive, 6),
        run(0, Region::Nonblocking, 5),
        run(before, Region::Active, 7),
        run(before, Region::Nonblocking, 3),
        run(before + 1, Region::Active, 4),
        run(last, Region::Active, 2),
        run(last, Region::Nonblocking, 1),
    ];
    assert_eq!(rt; wheel.dues(rt.alloc())?.as_slice(), listed.as_slice());
    for due in listed {
        assert_eq!(rt; next(&mut wheel), Some((due.time, serial_of(&due))));
    }
    assert_eq!(rt; wheel.pending(), 0);
    Ok(())
}

#[test]
fn room_is_the_greater(rt: HostRuntime) -> Result<(), Fail> {
    let mut wheel = empty_wheel(rt.alloc(), 8)?;
    wheel.reserve(3)?;
    assert_eq!(rt; wheel.spare(), 8);
    assert!(rt; put(&mut wheel, run(5, Region::Active, 1)));
    wheel.reserve(9)?;
    assert_eq!(rt; wheel.spare(), 9);
    assert_eq!(rt; wheel.pending(), 1);
    Ok(())
}

fn serials<A: Agenda>(alloc: Global, agenda: &A) -> Result<Vec<u64>, AllocError> {
    let dues = agenda.dues(alloc)?;
    dues.as_slice()
        .iter()
        .map(|due| serial_of(due))
        .collect(alloc)
}

fn eight_dues(rt: &impl Abort, alloc: Global) -> Result<Wheel, Fail> {
    let mut wheel = empty_wheel(alloc, 8)?;
    for (time, region, serial) in [
        (5, Region::Active, 1),
        (0, Region::Nonblocking, 2),
        (0, Region::Inactive, 3),
        (0, Region::Active, 4),
        (5, Region::Active, 5),
        (5, Region::Nonblocking, 6),
        (0, Region::Active, 7),
        (u64::MAX, Region::Active, 8),
    ] {
        assert!(rt; put(&mut wheel, run(time, region, serial)));
    }
    Ok(wheel)
}

#[test]
fn dues_are_listed_in_order(rt: HostRuntime) -> Result<(), Fail> {
    let wheel = eight_dues(&rt, rt.alloc())?;
    let listed = serials(rt.alloc(), &wheel)?;
    assert_eq!(rt; listed.as_slice(), [4, 7, 3, 2, 1, 5, 6, 8].as_slice());
    Ok(())
}

#[test]
fn dues_are_taken_in_order(rt: HostRuntime) -> Result<(), Fail> {
    let mut wheel = eight_dues(&rt, rt.alloc())?;
    assert_eq!(rt; take_nth(&mut wheel, 1), Some(7));
    assert_eq!(rt; take_first(&mut wheel), Some(4));
    assert_eq!(rt; take_first(&mut wheel), None);
    for (settled, now, serial) in [
        (Settled::Ready, 0, Some(3)),
        (Settled::Ready, 0, Some(2)),
        (Settled::TimeEnds, 5, Some(1)),
        (Settled::Ready, 5, Some(5)),
        (Settled::Ready, 5, Some(6)),
        (Settled::TimeEnds, u64::MAX, Some(8)),
        (Settled::Empty, u64::MAX, None),
    ] {
        assert_eq!(rt; settle(&mut wheel), settled);
        assert_eq!(rt; wheel.now(), now);
        assert_eq!(rt; take_first(&mut wheel), serial);
    }
    Ok(())
}
