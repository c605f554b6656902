//! Scripts that are read whole, and their faults.

use crate::faults::{Cause, ScriptFault};
use crate::lines::Line;
use crate::parser::Parser;
use crate::tests::{after_header, first_fault, next_of};
use xv_model::operations::{Op, PqOp};
use xv_model::outcomes::Outcome;

#[test]
fn reads_a_script(rt: HostRuntime) {
    let mut parser = after_header(&rt);
    match parser.feed(b"15 set 8191 10") {
        Ok(Line::Work { actor, mut work }) => {
            let first = next_of(&mut work, None);
            assert_eq!(rt; actor, 15);
            assert!(rt;
                matches!(
                    first,
                    Some(Op::Pq {
                        s: 8191,
                        op: PqOp::Set { pq: 2 }
                    })
                )
            );
            let set = Outcome::Pq {
                old: 1,
                new: 2,
                forward: 0,
            };
            assert!(rt; next_of(&mut work, Some(&set)).is_none());
        }
        _ => assert!(rt; false),
    }
    assert!(rt; parser.finish().is_ok());
    assert!(rt; matches!(parser.feed(b" end "), Ok(Line::End)));
    assert!(rt; matches!(parser.feed(b"\t"), Ok(Line::Nothing)));
}

#[test]
fn names_causes(rt: HostRuntime) {
    assert_eq!(rt;
        Cause::TooManyForwards.name(),
        b"too-many-forwards".as_slice()
    );
}

#[test]
fn names_the_line_of_a_fault(rt: HostRuntime) {
    let mut parser = Parser::new(false);
    let lines = [
        b"".as_slice(),
        b"board 1",
        b"# none",
        b"sources 0",
        b"sources 1",
    ];
    let fault = ScriptFault {
        line: 4,
        byte: 9,
        cause: Cause::OutOfRange,
    };
    assert_eq!(rt; first_fault(&mut parser, &lines), Some(fault));
    assert_eq!(rt; parser.finish(), Err(fault));
    let missing = ScriptFault {
        line: 4,
        byte: 1,
        cause: Cause::NoGo,
    };
    let mut short = Parser::new(false);
    assert!(rt; first_fault(&mut short, &lines[..3]).is_none());
    assert_eq!(rt; short.finish(), Err(missing));
    assert!(rt; matches!(short.feed(b"sources 1"), Err(f) if f == missing));
    assert_eq!(rt; short.finish(), Err(missing));
}

#[test]
fn reads_on_behind_a_header(rt: HostRuntime) {
    let header = after_header(&rt);
    let mut parser = Parser::after_go(header.board());
    assert!(rt; matches!(parser.feed(b"0 get 8191"), Ok(Line::Work { actor: 0, .. })));
    assert!(rt; matches!(parser.feed(b"start"), Ok(Line::Start)));
    assert_eq!(rt; parser.finish(), Ok(()));
    let again = ScriptFault {
        line: 3,
        byte: 1,
        cause: Cause::WrongPlace,
    };
    assert!(rt; matches!(parser.feed(b"start"), Err(fault) if fault == again));
    assert_eq!(rt; parser.finish(), Err(again));
}
