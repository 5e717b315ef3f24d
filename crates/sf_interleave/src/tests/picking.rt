use super::*;
use sf_list::{holds, same};

#[test]
fn the_earliest_chunk_is_picked_and_the_lowest_track_first(rt: HostRuntime) -> Result<(), Fail> {
    let alloc = rt.alloc();
    let table: [(&[(u32, u64, u64)], &[(u32, u64)]); 6] = [
        (&[(0, 0, 0), (1, 0, 0)], &[(0, 0), (1, 0)]),
        (&[(1, 0, 0), (0, 0, 0)], &[(0, 0), (1, 0)]),
        (
            &[(0, 0, 7), (0, 1, 7), (0, 2, 9)],
            &[(0, 0), (0, 1), (0, 2)],
        ),
        (
            &[(0, 0, 30), (1, 0, 10), (2, 0, 20)],
            &[(1, 0), (2, 0), (0, 0)],
        ),
        (
            &[(0, 0, 5), (0, 1, 15), (2, 0, 5), (2, 1, 6), (1, 0, 6)],
            &[(0, 0), (2, 0), (1, 0), (2, 1), (0, 1)],
        ),
        (&[], &[]),
    ];
    for (handed, wanted) in table {
        let mut pending = Pending::new(alloc, 3)?;
        holds(hand_all(alloc, &mut pending, handed)?)?;
        same(picked(alloc, pending)?.as_slice(), wanted)?;
    }
    Ok(())
}

#[test]
fn the_front_is_the_first_chunk_of_its_track(rt: HostRuntime) -> Result<(), Fail> {
    let alloc = rt.alloc();
    let mut pending = Pending::new(alloc, 3)?;
    holds(hand_all(alloc, &mut pending, &[(1, 4, 20), (1, 5, 10)])?)?;
    same(pending.front(1).map(|chunk| chunk.number), Some(4))?;
    holds(pending.front(0).is_none())?;
    holds(pending.pick().is_some())?;
    same(pending.front(1).map(|chunk| chunk.number), Some(5))?;
    Ok(())
}
