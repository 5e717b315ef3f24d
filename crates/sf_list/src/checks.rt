ghost use Rattle.std.specs.Prelude.{◌≡◌, is_ok};

use std::fmt::Debug;
use std::test::Fail;

/// What a test says of two values: nothing where they're equal, and else both of them. A test takes it
/// with `?`; it costs the proof of the test less than an `assert_eq!` does, which may stop the program.
pub fn same<T: PartialEq + Debug + Drop>(found: T, wanted: T) -> Result<(), Fail>
    ensures { is_ok result ≡ T.eq found wanted }
{
    if found == wanted {
        Ok(())
    } else {
        Err(Fail::new(format_args!("found {found:?}, wanted {wanted:?}")))
    }
}

/// What a test says of a fact: nothing where it holds.
pub fn holds(fact: bool) -> Result<(), Fail>
    ensures { is_ok result ≡ fact }
{
    if fact {
        Ok(())
    } else {
        Err(Fail::new("a fact doesn't hold"))
    }
}
