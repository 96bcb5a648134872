//! Envelopes are copied, encoded and read, each twice. The first call is right or out of memory; the second is right as if there had been no
//! first. If the second is out of memory, the test ends with that.
use super::*;
use std::test::*;

/// Whether a first answer is right, or memory ran out.
fn is_right_or_out_of_memory(answer: Result<bool, Fault>) -> bool {
    matches!(answer, Ok(true) | Err(Fault::NoMemory))
}

/// The statement with a signature of this many bytes.
fn signed(alloc: Global, statement: Statement, len: usize) -> Result<Envelope, Fault> {
    let signature = Signature::new(vec![in alloc; 9; len]?);
    Ok(Envelope {
        statement,
        signature,
    })
}

/// Whether the envelope is encoded as these bytes, and is as sane and as new as the original.
fn is_same(
    alloc: Global,
    found: &Envelope,
    original: &Envelope,
    bytes: &[u8],
) -> Result<bool, Fault> {
    let old = &original.statement;
    Ok(
        found.statement.sane() == old.sane()
            && !newer(old, &found.statement)
            && found.set_hash() == original.set_hash()
            && found.signature.as_slice() == original.signature.as_slice()
            && encode(alloc, found)?.as_slice() == bytes,
    )
}

/// Whether a copy of the envelope is the same.
fn is_copied(alloc: Global, original: &Envelope, bytes: &[u8]) -> Result<bool, Fault> {
    let copied = original.copy()?;
    is_same(alloc, &copied, original, bytes)
}

/// Whether what is read from the bytes is the same.
fn is_read(alloc: Global, original: &Envelope, bytes: &[u8]) -> Result<bool, Fault> {
    let read = decode(alloc, bytes)?;
    is_same(alloc, &read, original, bytes)
}

/// Whether the envelope is copied and read, each twice.
fn is_kept(alloc: Global, original: &Envelope, bytes: &[u8]) -> Result<bool, Fault> {
    Ok(
        is_right_or_out_of_memory(is_copied(alloc, original, bytes))
            && is_copied(alloc, original, bytes)?
            && is_right_or_out_of_memory(is_read(alloc, original, bytes))
            && is_read(alloc, original, bytes)?,
    )
}

/// Whether a copy of the statement, with as long a signature, is the same.
fn is_statement_copied(
    alloc: Global,
    original: &Envelope,
    length: usize,
    bytes: &[u8],
) -> Result<bool, Fault> {
    let copied = signed(alloc, original.statement.copy()?, length)?;
    is_same(alloc, &copied, original, bytes)
}

/// Statements with signatures of this many bytes, and the length of both.
const KINDS: [(Said, usize, usize); 9] = [
    (
        Said::Prepare((2, 5), Some((2, 5)), Some((1, 4)), 1, 2),
        0,
        136,
    ),
    (Said::Confirm((3, 5), 4, 2, 3), 3, 112),
    (Said::Externalize((3, 5), 4), 64, 164),
    (Said::Nominate(b"ab", b"b"), 0, 116),
    (Said::Nominate(b"", b""), 0, 92),
    (Said::Nominate(b"", b""), 1, 96),
    (Said::Nominate(b"", b""), 4, 96),
    (Said::Nominate(b"", b""), 63, 156),
    (Said::Nominate(b"", b""), 64, 156),
];

#[test]
fn each_kind_is_copied_and_read_again(rt: HostRuntime) -> Result<(), Fail> {
    for (said, length, len) in KINDS {
        let original = signed(rt.alloc(), stated(rt.alloc(), said)?, length)?;
        let bytes = encode(rt.alloc(), &original)?;
        assert_eq!(rt; bytes.len(), len, "{said:?}");
        assert!(rt; is_kept(rt.alloc(), &original, &bytes)?, "{said:?}");
        assert!(rt;
            is_statement_copied(rt.alloc(), &original, length, &bytes)?,
            "{said:?}"
        );
    }
    Ok(())
}

/// Whether a copy is still encoded so when its original is gone.
fn stays_copied(alloc: Global, original: Envelope, bytes: &[u8]) -> Result<bool, Fault> {
    let copied = original.copy()?;
    drop(original);
    Ok(encode(alloc, &copied)?.as_slice() == bytes)
}

#[test]
fn a_copy_stays_when_its_original_goes(rt: HostRuntime) -> Result<(), Fail> {
    let original = signed(
        rt.alloc(),
        stated(rt.alloc(), Said::Nominate(b"ab", b"b"))?,
        0,
    )?;
    let bytes = encode(rt.alloc(), &original)?;
    assert!(rt; stays_copied(rt.alloc(), original, &bytes)?);
    Ok(())
}

/// This many values of the greatest length.
fn many(alloc: Global, count: usize) -> Result<ValueList, Fault> {
    let mut values = Vec::new(alloc);
    for _ in 0..count {
        values.push(Value::new(vec![in alloc; 7; 4_096]?))?;
    }
    Ok(ValueList::new(values))
}

/// All 128 values, and 16 of them: more bytes than a message may have.
#[test]
fn the_longest_nomination_is_copied_and_read(rt: HostRuntime) -> Result<(), Fail> {
    for (votes, accepted, len) in [(64, 64, 524_892), (16, 0, 65_692)] {
        let mut statement = stated(rt.alloc(), Said::Nominate(b"", b""))?;
        statement.pledges = Pledges::Nominate(Nominate {
            set_hash: Hash([255; 32]),
            votes: many(rt.alloc(), votes)?,
            accepted: many(rt.alloc(), accepted)?,
        });
        let original = signed(rt.alloc(), statement, 0)?;
        let bytes = encode(rt.alloc(), &original)?;
        assert_eq!(rt; bytes.len(), len);
        assert!(rt; is_kept(rt.alloc(), &original, &bytes)?);
    }
    Ok(())
}

/// Whether a copy of the envelope has the same signature.
fn has_its_signature_copied(original: &Envelope) -> Result<bool, Fault> {
    let copied = original.copy()?;
    Ok(copied.signature.as_slice() == original.signature.as_slice())
}

/// A signature may be made with more than 64 bytes, and is copied.
#[test]
fn long_signatures_are_copied(rt: HostRuntime) -> Result<(), Fail> {
    for length in [65, 4_097, 70_000] {
        let original = signed(
            rt.alloc(),
            stated(rt.alloc(), Said::Nominate(b"", b""))?,
            length,
        )?;
        assert!(rt; has_its_signature_copied(&original)?);
    }
    Ok(())
}

/// A value of 4,097 bytes at each place where there may be one.
const TOO_LONG: [Said; 7] = [
    Said::Prepare((1, OVER), Some((1, 1)), Some((1, 1)), 0, 0),
    Said::Prepare((1, 1), Some((1, OVER)), Some((1, 1)), 0, 0),
    Said::Prepare((1, 1), Some((1, 1)), Some((1, OVER)), 0, 0),
    Said::Confirm((1, OVER), 1, 1, 1),
    Said::Externalize((1, OVER), 1),
    Said::Nominate(&[OVER], b""),
    Said::Nominate(b"", &[OVER]),
];

#[test]
fn long_values_are_not_encoded(rt: HostRuntime) -> Result<(), Fail> {
    for said in TOO_LONG {
        let original = signed(rt.alloc(), stated(rt.alloc(), said)?, 0)?;
        assert!(rt;
            matches!(encode(rt.alloc(), &original), Err(Fault::TooLong)),
            "{said:?}"
        );
    }
    Ok(())
}

#[test]
fn lists_and_signatures_give_their_bytes_back(rt: HostRuntime) -> Result<(), Fail> {
    let values = list(rt.alloc(), &[3, 1])?.into_vec();
    assert_eq!(rt; values.len(), 2);
    assert_eq!(rt; values[0].as_slice(), [3].as_slice());
    assert_eq!(rt; values[1].as_slice(), [1].as_slice());
    let signature = Signature::new(vec![in rt.alloc(); 5; 64]?);
    assert_eq!(rt; signature.into_vec().as_slice(), [5; 64].as_slice());
    Ok(())
}
