//! What a file is told to be.

use super::*;

#[test]
fn a_file_tells_its_size_before_and_after_a_chunk(rt: HostRuntime) -> Result<(), Fail> {
    let alloc = rt.alloc();
    let mut shelf = MemShelf::new(alloc, Vec::new(alloc));
    let mut file = begun(alloc, &mut shelf, &[sound(alloc, 48_000)?])?;
    assert_eq!(rt;
        (file.size(), file.start_us(), file.is_empty()),
        (604, 0, true)
    );
    let first = append(&mut file, &chunk(alloc, 0, &THREE)?)?;
    let wanted = Closing {
        bytes: 640,
        movie_box: 588,
        samples: 3,
    };
    assert_eq!(rt; first, wanted);
    assert_eq!(rt;
        (file.size(), file.start_us(), file.is_empty()),
        (640, 0, false)
    );
    // A second chunk of one sample adds its 4 bytes, 12 to stsc and 4 to stco.
    let second = append(&mut file, &chunk(alloc, 0, &[(64_000, 3072)])?)?;
    let wanted = Closing {
        bytes: 660,
        movie_box: 604,
        samples: 4,
    };
    assert_eq!(rt; second, wanted);
    assert_eq!(rt; file.size(), 660);
    Ok(())
}

#[test]
fn a_file_starts_with_its_first_chunk(rt: HostRuntime) -> Result<(), Fail> {
    let alloc = rt.alloc();
    let mut shelf = MemShelf::new(alloc, Vec::new(alloc));
    let mut file = begun(alloc, &mut shelf, &[sound(alloc, 48_000)?])?;
    append(&mut file, &chunk(alloc, 0, &[(1_000_000, 48_000)])?)?;
    append(&mut file, &chunk(alloc, 0, &[(1_021_333, 49_024)])?)?;
    assert_eq!(rt; file.start_us(), 1_000_000);
    Ok(())
}
