//! Exactly what fits a link is written.
use crate::short::{Short, message};
use scp_outbox::below::types::Fault;
use scp_outbox::below::wire::{FittingMessage, encode};
use std::alloc::Global;
use std::process::Abort;
use std::test::*;

/// Whether the message is written, or is too long for that; it fits exactly if it is written.
fn is_so(alloc: Global, short: Short, fits: bool) -> Result<bool, Fault> {
    let message = message(alloc, short)?;
    let written = match encode(alloc, &message) {
        Ok(_) => true,
        Err(Fault::TooLong) => false,
        Err(other) => return Err(other),
    };
    Ok(written == fits && FittingMessage::new(message).is_ok() == fits)
}

#[test]
fn what_fits_is_what_is_written(rt: HostRuntime) -> Result<(), Fail> {
    for (short, fits) in [
        (Short::AsksRecord(0), true),
        (Short::Record(1, 4_096), true),
        (Short::Record(1, 4_097), false),
        (Short::Set(1_000), true),
        (Short::Set(1_001), false),
        (Short::Votes(1, 64, 1), true),
        (Short::Votes(1, 65, 1), false),
        (Short::Votes(1, 1, 4_096), true),
        (Short::Votes(1, 1, 4_097), false),
        // 65,536 bytes, and 65,552
        (Short::Votes(1, 16, 4_077), true),
        (Short::Votes(1, 16, 4_078), false),
        (Short::Batch(1, 0, 1), false),
        (Short::Batch(1, 1, 1), true),
        (Short::Batch(1, 32, 1), true),
        (Short::Batch(1, 33, 1), false),
        (Short::Batch(u64::MAX, 1, 1), true),
        (Short::Batch(u64::MAX, 2, 1), false),
        (Short::Batch(u64::MAX - 31, 32, 1), true),
        (Short::Batch(u64::MAX - 30, 32, 1), false),
        (Short::Batch(1, 15, 4_096), true),
        (Short::Batch(1, 1, 4_097), false),
        // 65,536 bytes, and 65,648
        (Short::Batch(1, 28, 2_336), true),
        (Short::Batch(1, 28, 2_337), false),
    ] {
        assert!(rt; is_so(rt.alloc(), short, fits)?, "{short:?}");
    }
    Ok(())
}
