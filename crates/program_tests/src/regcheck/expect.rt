//! What tests expect.
use std::fmt::Debug;
use std::process::Abort;

// The two are equal. A failure says of what they are.
pub(crate) fn expect_eq<T: PartialEq + Debug>(rt: &impl Abort, got: &T, want: &T, of: &impl Debug) {
    assert_eq!(rt; *got, *want, "{of:?}");
}
