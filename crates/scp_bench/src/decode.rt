use scp_slot::below::types::Fault;
use scp_wire::{Message, decode};
use std::alloc::{AllocError, Global};

/// So many messages are made, and decoded again and again.
const DISTINCT: u32 = 4_096;

/// What was decoded.
#[derive(Clone, Copy)]
struct Decoded {
    messages: u64,
    /// The sum of the slots.
    slots: u64,
    /// The values' bytes together.
    bytes: u64,
}

/// The message of a slot's record (RFC 4506): kind 6, the slot, and a value of 24 bytes that puts "1" at a key of 4
/// bytes, which is the slot's own.
fn record(slot: u64) -> [u8; 40] {
    let [a, b, c, d, e, f, g, h] = slot.to_be_bytes();
    [
        0, 0, 0, 6, a, b, c, d, e, f, g, h, 0, 0, 0, 24, 0, 0, 0, 1, 0, 0, 0, 0, 0, 0, 0, 4, e, f,
        g, h, 0, 0, 0, 1, b'1', 0, 0, 0,
    ]
}

fn messages(alloc: Global) -> Result<Vec<[u8; 40]>, AllocError> {
    (1..=DISTINCT as u64).map(record).collect(alloc)
}

impl Decoded {
    /// Decodes one message.
    fn take(&mut self, alloc: Global, bytes: &[u8]) -> Result<(), Fault> {
        if let Message::Record(slot, value) = decode(alloc, bytes)? {
            self.messages = self.messages.wrapping_add(1);
            self.slots = self.slots.wrapping_add(slot.0);
            self.bytes = self.bytes.wrapping_add(value.as_slice().len() as u64);
        }
        Ok(())
    }

    /// Decodes messages one after the other.
    fn take_all(&mut self, alloc: Global, messages: &[[u8; 40]]) -> Result<(), Fault> {
        for bytes in messages {
            self.take(alloc, bytes)?;
        }
        Ok(())
    }

    /// Decodes so many messages, from the first again behind the last.
    fn take_in_turn(
        &mut self,
        alloc: Global,
        messages: &[[u8; 40]],
        size: u32,
    ) -> Result<(), Fault> {
        for _ in 0..size / DISTINCT {
            self.take_all(alloc, messages)?;
        }
        let left = (size % DISTINCT) as usize;
        match messages.get(..left) {
            Some(rest) => self.take_all(alloc, rest),
            None => Ok(()),
        }
    }
}

/// Decodes so many messages of a record with a value of 24 bytes.
pub fn decode_records(alloc: Global, size: u32) -> Result<String, Fault> {
    let mut decoded = Decoded {
        messages: 0,
        slots: 0,
        bytes: 0,
    };
    let messages = messages(alloc)?;
    decoded.take_in_turn(alloc, messages.as_slice(), size)?;
    let Decoded {
        messages,
        slots,
        bytes,
    } = decoded;
    Ok(format!(in alloc; "messages {messages} slots {slots} bytes {bytes}")?)
}
