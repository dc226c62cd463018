use super::*;
use rc_instance::InstanceFault;
use std::test::*;

#[test]
fn tokens_are_found_with_their_offsets(rt: HostRuntime) {
    let text = b" 12\r\n\x1a7";
    for (from, span) in [
        (0, Some((1, 3))),
        (1, Some((1, 3))),
        (2, Some((6, 7))),
        (6, Some((6, 7))),
        (7, None),
    ] {
        assert_eq!(rt; next_token(text, from), span);
    }
}

#[test]
fn numbers_are_read(rt: HostRuntime) {
    assert_eq!(rt; read_number(b"0042"), Ok(42));
    assert_eq!(rt; read_number(b"4294967295"), Ok(u32::MAX));
    assert_eq!(rt;
        read_number(b"4294967296"),
        Err(NumberFault::NumberTooLarge)
    );
    assert_eq!(rt;
        read_number(b"99999999999999999999x"),
        Err(NumberFault::NotANumber)
    );
    assert_eq!(rt; read_number(b"+1"), Err(NumberFault::NotANumber));
    assert_eq!(rt; read_number(b""), Err(NumberFault::NotANumber));
}

#[test]
fn a_number_is_due(rt: HostRuntime) {
    assert_eq!(rt; number_due(b" 5 ", 0), Ok((Number { value: 5, at: 1 }, 2)));
    let ended = TextFault {
        kind: TextKind::Ended,
        at: 3,
    };
    assert_eq!(rt; number_due(b" 5 ", 2), Err(ended));
    assert_eq!(rt; refuse_if(true, TextKind::Ended, 3), Err(ended));
    assert_eq!(rt; refuse_if(false, TextKind::Ended, 3), Ok(()));
}

#[test]
fn kinds_have_words(rt: HostRuntime) -> Result<(), Fail> {
    let too_long = TextKind::Instance(InstanceFault::TooLong { sum: 65_536 });
    for (kind, words) in [
        (TextKind::Expected(Item::Jobs), "expected jobs at 7"),
        (TextKind::MultiMode, "not single mode at 7"),
        (TextKind::NotRising, "not rising at 7"),
        (too_long, "too long at 7"),
    ] {
        let fault = TextFault { kind, at: 7 };
        let text = format!(in rt.alloc(); "{fault}")?;
        assert_eq!(rt; text.as_str(), words);
    }
    let (number, fetch) = (NumberFault::NumberTooLarge, FetchFault::TooLarge);
    let text = format!(in rt.alloc(); "{number}, {fetch}, {}", SinkFault::Failed)?;
    assert_eq!(rt; text.as_str(), "number too large, too large, cannot write");
    Ok(())
}
