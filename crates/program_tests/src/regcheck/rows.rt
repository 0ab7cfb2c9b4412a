//! Histories of several registers with their answers, worked out by hand from the definitions.
use reg_report::Outcome;

/// A write, and a read of it.
pub(crate) const READ_ONCE: &str =
    r#"{"process":1,"event":"call","op":"write","register":"x","value":5}
{"process":1,"event":"reply"}
{"process":2,"event":"call","op":"read","register":"x"}
{"process":2,"event":"reply","value":5}
"#;

/// A name, a history, the bytes of its report, and whether it is atomic.
pub(crate) type Report = (&'static str, &'static str, &'static str, Outcome);

/// Two pieces of work, whatever the cut.
pub(crate) const TWO_WRITES: Report = (
    "one value in two registers",
    r#"{"process":1,"event":"call","op":"write","register":"x","value":5}
{"process":1,"event":"reply"}
{"process":1,"event":"call","op":"write","register":"y","value":5}
{"process":1,"event":"reply"}
"#,
    r#"{"atomic":"yes","order":[1],"pending":0,"points":[1],"reads":0,"register":"x","regular":"yes","safe":"yes","writes":1}
{"atomic":"yes","order":[3],"pending":0,"points":[3],"reads":0,"register":"y","regular":"yes","safe":"yes","writes":1}
{"atomic":"yes","operations":2,"order":[1,3],"registers":2}
"#,
    Outcome::Atomic,
);

/// Four pieces of work in cuts of one read: a new value is read before the old one, and several processes
/// write the second register.
pub(crate) const TWO_FAULTY: Report = (
    "two registers that are not atomic",
    r#"{"process":1,"event":"call","op":"write","register":"x","value":1}
{"process":1,"event":"reply"}
{"process":1,"event":"call","op":"write","register":"x","value":2}
{"process":2,"event":"call","op":"read","register":"x"}
{"process":2,"event":"reply","value":2}
{"process":2,"event":"call","op":"read","register":"x"}
{"process":2,"event":"reply","value":1}
{"process":1,"event":"reply"}
{"process":1,"event":"call","op":"write","register":"y","value":1}
{"process":1,"event":"reply"}
{"process":2,"event":"call","op":"write","register":"y","value":2}
{"process":2,"event":"reply"}
{"process":3,"event":"call","op":"read","register":"y"}
{"process":3,"event":"reply","value":2}
{"process":3,"event":"call","op":"read","register":"y"}
{"process":3,"event":"reply","value":1}
"#,
    r#"{"atomic":"no","fault":{"first":[1,4],"kind":"zones","second":[4,6],"writes":[1,3]},"inversion":[4,6],"pending":0,"reads":2,"register":"x","regular":"yes","safe":"yes","writes":2}
{"atomic":"no","fault":{"first":[9,13],"kind":"zones","second":[11,15],"writes":[9,11]},"pending":0,"reads":2,"register":"y","regular":"several writers","safe":"several writers","writes":2}
{"atomic":"no","operations":8,"registers":2}
"#,
    Outcome::NotAtomic,
);

/// The first register is atomic, and the two others have reads of what nobody wrote. This is the answer of
/// `--first`.
pub(crate) const SECOND_OF_THREE: Report = (
    "the second of three registers",
    r#"{"process":1,"event":"call","op":"write","register":"a","value":1}
{"process":1,"event":"reply"}
{"process":2,"event":"call","op":"read","register":"b"}
{"process":2,"event":"reply","value":9}
{"process":2,"event":"call","op":"read","register":"c"}
{"process":2,"event":"reply","value":9}
"#,
    r#"{"atomic":"no","fault":{"kind":"unwritten","read":3},"pending":0,"reads":1,"register":"b","regular":"no","regular_read":3,"safe":"no","safe_read":3,"writes":0}
{"atomic":"no","operations":3,"registers":3}
"#,
    Outcome::NotAtomic,
);

/// The second register's fault is over before the first one's: the first by appearance counts, whatever was
/// found sooner.
pub(crate) const FIRST_BY_APPEARANCE: Report = (
    "the first register by appearance",
    r#"{"process":1,"event":"call","op":"read","register":"a"}
{"process":2,"event":"call","op":"read","register":"b"}
{"process":2,"event":"reply","value":9}
{"process":3,"event":"call","op":"write","register":"c","value":1}
{"process":1,"event":"reply","value":9}
"#,
    r#"{"atomic":"no","fault":{"kind":"unwritten","read":1},"pending":0,"reads":1,"register":"a","regular":"no","regular_read":1,"safe":"no","safe_read":1,"writes":0}
{"atomic":"no","operations":3,"registers":3}
"#,
    Outcome::NotAtomic,
);
