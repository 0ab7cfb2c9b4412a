//! What calls say of histories whose answers were worked out by hand.
use crate::{
    Answer, BAD_NUMBER, NO, REFUSED, TOO_SMALL, UNKNOWN, YES, regcheck_refusal, regcheck_report,
    reglevel_report, regsearch_refusal, regsearch_report,
};
use std::alloc::Global;
use std::test::Fail;

// Room for more bytes than any report here has, and what it holds before a call.
const ROOM: usize = 1024;

const BEFORE: u8 = b'?';

/// Which function is called: for a search with its bounds, steps and configurations; for the levels with the
/// numbers of the level and of what is asked for in addition.
#[derive(Clone, Copy)]
enum Call {
    Check,
    Search(u64, usize),
    Level(u32, u32),
}

const WRITE_AND_READ: &str = r#"{"process":1,"event":"call","op":"write","register":"x","value":5}
{"process":1,"event":"reply"}
{"process":2,"event":"call","op":"read","register":"x"}
{"process":2,"event":"reply","value":5}
"#;

const CHECKED: &str =
    r#"{"atomic":"yes","order":[1,3],"pending":0,"points":[1,3],"reads":1,"register":"x","regular":"yes","safe":"yes","writes":1}
{"atomic":"yes","operations":2,"order":[1,3],"registers":1}
"#;

// A write of a value that was there before, and a cas of it.
const WRITES_AND_CAS: &str = r#"{"process":1,"event":"call","op":"write","register":"x","value":5}
{"process":1,"event":"reply"}
{"process":1,"event":"call","op":"write","register":"x","value":5}
{"process":1,"event":"reply"}
{"process":2,"event":"call","op":"cas","register":"x","from":5,"to":6}
{"process":2,"event":"reply","ok":true}
"#;

const SEARCHED: &str =
    r#"{"atomic":"yes","cas":1,"order":[1,3,5],"pending":0,"points":[1,3,5],"reads":0,"register":"x","writes":2}
{"atomic":"yes","operations":3,"registers":1}
"#;

// Two cas from null. When the write is answered, neither has taken effect, or one: three configurations.
const TWO_CAS: &str = r#"{"process":1,"event":"call","op":"cas","register":"x","from":null,"to":1}
{"process":2,"event":"call","op":"cas","register":"x","from":null,"to":2}
{"process":3,"event":"call","op":"write","register":"x","value":5}
{"process":3,"event":"reply"}
{"process":1,"event":"reply","ok":true}
{"process":2,"event":"reply","ok":true}
"#;

// A read of null after a write.
const STALE_READ: &str = r#"{"process":1,"event":"call","op":"write","register":"x","value":1}
{"process":1,"event":"reply"}
{"process":2,"event":"call","op":"read","register":"x"}
{"process":2,"event":"reply","value":null}
"#;

const LEVELS: &str =
    r#"{"atomic":"no","back":0,"gap":{"events":1,"first":[0,1],"second":[1,3],"writes":[0,1]},"inverted":0,"lost":1,"lost_write":1,"own":0,"pending":0,"reads":1,"register":"x","regular":"no","sequential":"yes","session":"yes","stale":1,"stale_read":{"newer":1,"read":3,"seen":0},"writes":1}
{"atomic":"no","back":0,"causal":"yes","gap":1,"inverted":0,"lost":1,"operations":2,"own":0,"reads":1,"registers":1,"regular":"no","sequential":"yes","session":"yes","stale":1}
"#;

const LEVELS_AND_MORE: &str =
    r#"{"atomic":"no","back":0,"gap":{"events":1,"first":[0,1],"second":[1,3],"writes":[0,1]},"inverted":0,"lost":1,"lost_write":1,"order":[3,1],"order_of":"session","own":0,"pending":0,"reads":1,"register":"x","regular":"no","sequential":"yes","session":"yes","stale":1,"stale_read":{"newer":1,"read":3,"seen":0},"stale_reads":[[3,1]],"writes":1}
{"atomic":"no","back":0,"causal":"yes","causal_order":[1],"gap":1,"inverted":0,"lost":1,"operations":2,"own":0,"reads":1,"registers":1,"regular":"no","sequential":"yes","session":"yes","stale":1}
"#;

// A call, its history, and the status, number, line, other line and report of its answer.
const ANSWERS: [(Call, &str, u32, u32, u32, u32, &str); 23] = [
    (Call::Check, WRITE_AND_READ, YES, 0, 0, 0, CHECKED),
    (
        Call::Check,
        "",
        YES,
        0,
        0,
        0,
        "{\"atomic\":\"yes\",\"operations\":0,\"order\":[],\"registers\":0}\n",
    ),
    (
        Call::Check,
        r#"{"process":2,"event":"call","op":"read","register":"x"}
{"process":2,"event":"reply","value":9}
"#,
        NO,
        0,
        0,
        0,
        r#"{"atomic":"no","fault":{"kind":"unwritten","read":1},"pending":0,"reads":1,"register":"x","regular":"no","regular_read":1,"safe":"no","safe_read":1,"writes":0}
{"atomic":"no","operations":1,"registers":1}
"#,
    ),
    (Call::Check, "\n[]\n", REFUSED, 3, 2, 0, ""),
    (
        Call::Check,
        r#"{"process":1,"event":"call","op":"read","register":"x"}
{"process":1,"event":"call","op":"read","register":"y"}
"#,
        REFUSED,
        9,
        2,
        1,
        "",
    ),
    (
        Call::Check,
        r#"{"process":1,"event":"call","op":"write","register":"x","value":1}
{"process":1,"event":"reply"}

{"process":1,"event":"call","op":"write","register":"x","value":1}
"#,
        REFUSED,
        13,
        4,
        1,
        "",
    ),
    (Call::Search(0, 0), WRITES_AND_CAS, YES, 0, 0, 0, SEARCHED),
    (
        Call::Search(0, 3),
        TWO_CAS,
        NO,
        0,
        0,
        0,
        r#"{"atomic":"no","cas":2,"fault":{"asks":[2],"before":[1,3],"kind":"search","reply":6},"pending":0,"reads":0,"register":"x","writes":1}
{"atomic":"no","operations":3,"registers":1}
"#,
    ),
    (
        Call::Search(0, 2),
        TWO_CAS,
        UNKNOWN,
        0,
        0,
        0,
        r#"{"atomic":"unknown","cas":2,"gave_up":{"bound":"configurations"},"pending":0,"reads":0,"register":"x","writes":1}
{"atomic":"unknown","operations":3,"registers":1}
"#,
    ),
    (
        Call::Search(2, 0),
        TWO_CAS,
        UNKNOWN,
        0,
        0,
        0,
        r#"{"atomic":"unknown","cas":2,"gave_up":{"bound":"steps"},"pending":0,"reads":0,"register":"x","writes":1}
{"atomic":"unknown","operations":3,"registers":1}
"#,
    ),
    (
        Call::Search(1, 0),
        "",
        YES,
        0,
        0,
        0,
        "{\"atomic\":\"yes\",\"operations\":0,\"registers\":0}\n",
    ),
    (
        Call::Search(0, 0),
        r#"{"process":2,"event":"call","op":"read","register":"x"}
{"process":2,"event":"reply","value":9}
"#,
        NO,
        0,
        0,
        0,
        r#"{"atomic":"no","cas":0,"fault":{"call":1,"kind":"unwritten"},"pending":0,"reads":1,"register":"x","writes":0}
{"atomic":"no","operations":1,"registers":1}
"#,
    ),
    (Call::Search(0, 0), "\n[]\n", REFUSED, 3, 2, 0, ""),
    (
        Call::Search(0, 0),
        r#"{"process":1,"event":"call","op":"read","register":"x"}
{"process":1,"event":"call","op":"read","register":"y"}
"#,
        REFUSED,
        9,
        2,
        1,
        "",
    ),
    (Call::Level(0, 0), STALE_READ, NO, 0, 0, 0, LEVELS),
    (Call::Level(1, 0), STALE_READ, NO, 0, 0, 0, LEVELS),
    (Call::Level(2, 0), STALE_READ, YES, 0, 0, 0, LEVELS),
    (Call::Level(5, 3), STALE_READ, YES, 0, 0, 0, LEVELS_AND_MORE),
    (Call::Level(6, 0), STALE_READ, YES, 0, 0, 0, LEVELS),
    (Call::Level(7, 0), STALE_READ, BAD_NUMBER, 0, 0, 0, ""),
    (Call::Level(0, 4), STALE_READ, BAD_NUMBER, 0, 0, 0, ""),
    (Call::Level(0, 0), "\n[]\n", REFUSED, 3, 2, 0, ""),
    (Call::Level(7, 0), "\n[]\n", BAD_NUMBER, 0, 0, 0, ""),
];

/// What the call says, and puts into `out`.
fn answered(alloc: Global, call: Call, history: &str, out: &mut [u8]) -> Answer {
    // Said before, so that a call which says nothing is seen.
    let mut answer = Answer {
        status: 99,
        number: 99,
        line: 99,
        other: 99,
        length: 99,
    };
    let input = history.as_bytes();
    match call {
        Call::Check => regcheck_report(alloc, input, out, &mut answer),
        Call::Search(steps, configurations) => {
            regsearch_report(alloc, input, steps, configurations, out, &mut answer)
        }
        Call::Level(level, more) => reglevel_report(alloc, input, level, more, out, &mut answer),
    }
    answer
}

/// Whether a place begins with this text, and is as it was behind it.
fn holds(out: &[u8], text: &str) -> bool {
    let text = text.as_bytes();
    text.len() <= out.len()
        && &out[..text.len()] == text
        && out[text.len()..].iter().all(|byte| *byte == BEFORE)
}

// Each call says what is expected, and puts the report and nothing else into the place.
#[test]
fn answers(rt: HostRuntime) -> Result<(), Fail> {
    for (call, history, status, number, line, other, report) in ANSWERS {
        let mut out = [BEFORE; ROOM];
        let answer = answered(rt.alloc(), call, history, &mut out);
        let want = Answer {
            status,
            number,
            line,
            other,
            length: report.len() as u64,
        };
        assert_eq!(rt; answer, want, "{history}");
        assert!(rt; holds(&out, report), "{history}");
    }
    Ok(())
}

// A call, and a history that it says yes of with this report.
const REPORTS: [(Call, &str, &str); 3] = [
    (Call::Check, WRITE_AND_READ, CHECKED),
    (Call::Search(0, 0), WRITES_AND_CAS, SEARCHED),
    (Call::Level(2, 0), STALE_READ, LEVELS),
];

// A report fits into a place of its own size, and into no smaller one, which stays as it was.
#[test]
fn rooms(rt: HostRuntime) -> Result<(), Fail> {
    for (call, history, report) in REPORTS {
        let length = report.len();
        assert!(rt; 0 < length && length <= ROOM);
        for (room, status, put) in [
            (length, YES, report),
            (length - 1, TOO_SMALL, ""),
            (0, TOO_SMALL, ""),
        ] {
            let mut out = [BEFORE; ROOM];
            assert!(rt; room <= ROOM);
            let answer = answered(rt.alloc(), call, history, &mut out[..room]);
            assert_eq!(rt;
                (answer.status, answer.length),
                (status, length as u64),
                "{room}"
            );
            assert!(rt; holds(&out, put), "{room}");
        }
    }
    Ok(())
}

// A history, the room for the line of its refusal, the line's length, and what is put there. The last is
// refused by none.
const LINES: [(&str, usize, usize, &str); 4] = [
    ("\n[]\n", ROOM, 21, "line 2: not an object"),
    ("\n[]\n", 21, 21, "line 2: not an object"),
    ("\n[]\n", 20, 21, ""),
    (WRITE_AND_READ, ROOM, 0, ""),
];

// The line of a refusal fits into a place of its own size, and into no smaller one, which stays as it was.
#[test]
fn refusals(rt: HostRuntime) -> Result<(), Fail> {
    for (history, room, length, line) in LINES {
        assert!(rt; room <= ROOM);
        for searching in [false, true] {
            let mut out = [BEFORE; ROOM];
            let place = &mut out[..room];
            let said = if searching {
                regsearch_refusal(rt.alloc(), history.as_bytes(), place)
            } else {
                regcheck_refusal(rt.alloc(), history.as_bytes(), place)
            };
            assert_eq!(rt; said, length, "{room}");
            assert!(rt; holds(&out, line), "{room}");
        }
    }
    Ok(())
}
