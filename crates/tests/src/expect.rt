//! Checks. `assert!` is proved at each call, while these are proved once, and the macros call `expect` on their result
//! in the test. A branch makes the proof of a test longer, and so does each borrow: so a note is a value and no
//! formatted text, and `expect_ok!` replaces `?`.
use fakes::OUT_OF_MEMORY;
use multihash::Error;
use std::fmt::Debug;

/// Like `assert!`; prints the note's value too, if there is one.
macro_rules! check {
    ($rt:expr; $cond:expr $(,)?) => {
        check!($rt; $cond, ())
    };
    ($rt:expr; $cond:expr, $note:expr $(,)?) => {
        $crate::expect::holds($cond, $note).expect($rt, stringify!($cond))
    };
}

/// Like `assert_eq!`, for two values of one type; prints the note's value too, if there is one.
macro_rules! check_eq {
    ($rt:expr; $left:expr, $right:expr $(,)?) => {
        check_eq!($rt; $left, $right, ())
    };
    ($rt:expr; $left:expr, $right:expr, $note:expr $(,)?) => {
        $crate::expect::equal($left, $right, $note).expect($rt, stringify!($left))
    };
}

/// The value of a result that is no error.
macro_rules! expect_ok {
    ($rt:expr; $outcome:expr $(,)?) => {
        $outcome.expect($rt, stringify!($outcome))
    };
}

pub(crate) use check;
pub(crate) use check_eq;
pub(crate) use expect_ok;

/// A value that is not the expected one.
#[derive(Debug, Drop)]
pub struct Unequal<T, N> {
    pub value: T,
    pub wanted: T,
    pub note: N,
}

/// Returns the note if the condition is false.
pub fn holds<N: Drop>(condition: bool, note: N) -> Result<(), N> {
    if condition { Ok(()) } else { Err(note) }
}

/// Returns both values and the note if they differ.
pub fn equal<T: PartialEq + Debug + Drop, N: Debug + Drop>(
    value: T,
    wanted: T,
    note: N,
) -> Result<(), Unequal<T, N>> {
    if value == wanted {
        return Ok(());
    }
    Err(Unequal {
        value,
        wanted,
        note,
    })
}

/// Whether this is the error of a reader or a writer that prints this text.
pub fn has_text(e: &Error, text: &str) -> bool {
    e.io().is_some_and(|io| {
        io.text() == text && io.is_out_of_memory() == (text == OUT_OF_MEMORY)
    })
}

/// Whether a call passed on the reader's or the writer's error that prints this text.
pub fn is_passed_on<T>(outcome: &Result<T, Error>, text: &str) -> bool {
    match outcome {
        Ok(_) => false,
        Err(e) => has_text(e, text),
    }
}

/// The text of a full writer's error.
pub const FULL: &str = "failed to write whole buffer";
