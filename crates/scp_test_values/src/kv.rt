use crate::twice::{is_right_or_out_of_memory, value_of};
use scp_kv::*;
use scp_quorum::below::types::{Fault, Value};
use std::alloc::Global;
use std::process::Abort;
use std::test::*;

/// Puts the number at itself. The bytes of numbers are in the numbers' own order.
fn put(alloc: Global, state: &mut KvState, number: u32) -> Result<(), Fault> {
    let key = value_of(alloc, &number.to_be_bytes())?;
    let entry = value_of(alloc, &number.to_be_bytes())?;
    state.apply(Op::Put(key, entry))
}

/// Whether the state has the numbers below this one and no others, ascending, each at itself.
fn has_those_below(state: &KvState, bound: u32) -> bool {
    let bound_len = bound as usize;
    if state.len() != bound_len
        || state.is_empty() != (bound == 0)
        || state.lines().count() != bound_len
    {
        return false;
    }
    for ((key, entry), number) in state.lines().zip(0..bound) {
        if key.as_slice() != number.to_be_bytes().as_slice() || entry != key {
            return false;
        }
    }
    true
}

/// Puts the number, and once more if it is refused: a refusal leaves the state as it was.
fn put_again(
    rt: &impl Abort,
    alloc: Global,
    state: &mut KvState,
    number: u32,
) -> Result<(), Fault> {
    if put(alloc, state, number) == Err(Fault::NoMemory) {
        assert!(rt; has_those_below(state, number));
        put(alloc, state, number)?;
    }
    assert!(rt; has_those_below(state, number.saturating_add(1)));
    Ok(())
}

#[test]
fn a_refused_put_leaves_the_state_and_is_made_again(rt: HostRuntime) -> Result<(), Fail> {
    let mut state = KvState::new(rt.alloc());
    assert!(rt; has_those_below(&state, 0));
    for number in 0..40 {
        put_again(&rt, rt.alloc(), &mut state, number)?;
    }
    Ok(())
}

/// Whether the state has the key, with the key itself as its value; or lacks the key, if `is_there` isn't set.
fn is_got(state: &KvState, key: &Value, is_there: bool) -> bool {
    match state.get(key) {
        Some(entry) => is_there && entry == key,
        None => !is_there,
    }
}

/// How many keys a large state has.
const KEYS: u32 = 1_500;

/// They are put in another order than that of the keys.
#[test]
fn each_key_of_a_large_state_is_got(rt: HostRuntime) -> Result<(), Fail> {
    let mut state = KvState::new(rt.alloc());
    for step in 0..KEYS {
        put(rt.alloc(), &mut state, step.wrapping_mul(7) % KEYS)?;
    }
    assert!(rt; has_those_below(&state, KEYS));
    for number in 0..=KEYS {
        let key = value_of(rt.alloc(), &number.to_be_bytes())?;
        assert!(rt; is_got(&state, &key, number < KEYS), "at {number}");
    }
    assert!(rt; is_got(&state, &value_of(rt.alloc(), &[])?, false));
    Ok(())
}

/// A list of three operations: a put of 5 bytes at "kk", a put of "kk" there, and a del of "k".
const THREE: [u8; 60] = [
    0, 0, 0, 3, 0, 0, 0, 0, 0, 0, 0, 2, b'k', b'k', 0, 0, 0, 0, 0, 5, b'v', b'v', b'v', b'v', b'v',
    0, 0, 0, 0, 0, 0, 0, 0, 0, 0, 2, b'k', b'k', 0, 0, 0, 0, 0, 2, b'k', b'k', 0, 0, 0, 0, 0, 1, 0,
    0, 0, 1, b'k', 0, 0, 0,
];

/// Whether the state that the list makes has this key, with the key itself as its value, and no other.
fn is_applied(alloc: Global, list: &Value, key: &Value) -> Result<bool, Fault> {
    let mut state = KvState::new(alloc);
    apply_value(&mut state, list)?;
    Ok(state.len() == 1 && is_got(&state, key, true))
}

/// A value that is refused is applied to another state, since the first one may be changed.
#[test]
fn a_refused_value_is_applied_again(rt: HostRuntime) -> Result<(), Fail> {
    let list = value_of(rt.alloc(), &THREE)?;
    let key = value_of(rt.alloc(), b"kk")?;
    assert!(rt; is_right_or_out_of_memory(is_applied(rt.alloc(), &list, &key)));
    assert!(rt; is_applied(rt.alloc(), &list, &key)?);
    Ok(())
}

/// A list of 13 puts, each with a key of 64 bytes and an entry of 256; only the last entry has this many bytes, a multiple of 4.
fn long_list(alloc: Global, last_len: u8) -> Result<Vec<u8>, Fault> {
    let mut bytes = Vec::from_slice(alloc, &[0, 0, 0, 13])?;
    for number in 0..13 {
        bytes.extend_from_slice(&[0, 0, 0, 0, 0, 0, 0, 64])?;
        bytes.extend_from_slice(&[b'k'; 64])?;
        if number < 12 {
            bytes.extend_from_slice(&[0, 0, 1, 0])?;
            bytes.extend_from_slice(&[b'v'; 256])?;
        } else {
            bytes.extend_from_slice(&[0, 0, 0, last_len])?;
            bytes.resize(bytes.len().saturating_add(last_len as usize), b'v')?;
        }
    }
    Ok(bytes)
}

/// Whether the value is a list of this many operations, or is no list.
fn has_ops(alloc: Global, list: &Value, want: Option<usize>) -> Result<bool, Fault> {
    let ops = ops_of(alloc, list)?;
    let count = match &ops {
        Some(ops) => Some(ops.len()),
        None => None,
    };
    Ok(is_ops(list) == want.is_some() && count == want)
}

/// A value with more bytes can be made, but no message has one.
#[test]
fn a_list_has_at_most_4_096_bytes(rt: HostRuntime) -> Result<(), Fail> {
    for (last_len, len, want) in [(32, 4_096, Some(13)), (36, 4_100, None)] {
        let mut bytes = long_list(rt.alloc(), last_len)?;
        assert_eq!(rt; bytes.len(), len);
        let list = value_of(rt.alloc(), &bytes)?;
        assert!(rt; has_ops(rt.alloc(), &list, want)?, "{len} bytes");
        bytes.push(0)?;
        assert!(rt;
            has_ops(rt.alloc(), &Value::new(bytes), None)?,
            "{len} bytes and one"
        );
    }
    Ok(())
}
