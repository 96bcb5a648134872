ghost use Rattle.std.specs.Prelude.{◌≡◌, ◌+◌, ◌<◌, ◌^◌, length, MatchResult, IfOk};
ghost use Rattle.scp_xdr.specs.Reading.{start, read_uint32, read_uint64, read_bytes, read_count, read_opaque, read_flag, read_end, first_nonzero};
ghost use Rattle.scp_xdr.specs.Words.{Reads};

use crate::padding::padding_len;
use scp_types::Fault;
use std::marker::Model;

/// Reads XDR (RFC 4506) from the front of a slice, without memory and without a copy. Each call reads
/// one item, or answers its first fault and leaves the reader where it was. The faults are
/// `Fault::Malformed`, with the place in the whole slice, and `Fault::TooLong`.
#[derive(Drop)]
pub struct Reader<'a> {
    place: usize,
    rest: &'a [u8],
}

impl<'a> Model for Reader<'a> {
    ghost use Rattle.std.specs.Prelude.{◌+◌, ◌<◌, ◌^◌, length};
    ghost use Rattle.scp_xdr.specs.Reading.{Cursor};

    ghost Value = { Cursor };

    ghost view = { λ r. record { place = r.place; rest = r.rest.now } };

    ghost invariant = { λ r. r.place + length r.rest.now < 2 ^ 64 };
}

/// The place of the first byte that isn't zero.
fn first_nonzero(bytes: &[u8]) -> Option<usize>
    ensures { result ≡ first_nonzero bytes.now }
{
    bytes.iter().position(|byte| *byte != 0)
}

impl<'a> Reader<'a> {
    /// A reader of these bytes, at their start.
    pub fn new(bytes: &'a [u8]) -> Reader<'a>
        ensures { result ≡ start bytes.now }
    {
        Reader {
            place: 0,
            rest: bytes,
        }
    }

    /// How many bytes were read.
    pub fn place(&self) -> usize
        ensures { result ≡ self.now.place }
    {
        let Reader { place, .. } = self;
        *place
    }

    /// A number in 4 bytes, big-endian (RFC 4506, section 4.2).
    #[tactic(auto, unfolding(crate::specs::Reading::read_uint32))]
    pub fn u32(&mut self) -> Result<u32, Fault>
        ensures { Reads (λ n. n) self.old self.new result (read_uint32 self.old) }
    {
        let Some((front, rest)) = self.rest.split_first_chunk::<4>() else {
            return Err(Fault::Malformed(self.place));
        };
        self.place += 4;
        self.rest = rest;
        Ok(u32::from_be_bytes(*front))
    }

    /// A number in 8 bytes, big-endian (RFC 4506, section 4.5).
    #[tactic(auto, unfolding(crate::specs::Reading::read_uint64))]
    pub fn u64(&mut self) -> Result<u64, Fault>
        ensures { Reads (λ n. n) self.old self.new result (read_uint64 self.old) }
    {
        let Some((front, rest)) = self.rest.split_first_chunk::<8>() else {
            return Err(Fault::Malformed(self.place));
        };
        self.place += 8;
        self.rest = rest;
        Ok(u64::from_be_bytes(*front))
    }

    /// `len` bytes, and their padding.
    #[tactic(auto, unfolding(crate::specs::Reading::read_bytes))]
    fn bytes(&mut self, len: usize) -> Result<&'a [u8], Fault>
        ensures reads { Reads (λ bytes. bytes.now) self.old self.new result (read_bytes len self.old) }
        ensures len { IfOk result (λ bytes. length bytes.now ≡ len) }
    {
        let zeros = padding_len(len);
        if self.rest.len() < len || self.rest.len() - len < zeros {
            return Err(Fault::Malformed(self.place));
        }
        let (bytes, rest) = self.rest.split_at(len);
        let (padding, rest) = rest.split_at(zeros);
        match first_nonzero(padding) {
            Some(i) => Err(Fault::Malformed(self.place + len + i)),
            None => {
                self.place = self.place + len + zeros;
                self.rest = rest;
                Ok(bytes)
            }
        }
    }

    /// `N` bytes, and their padding (RFC 4506, section 4.9). Missing bytes are malformed where the
    /// bytes begin, padding at its first byte that isn't zero.
    pub fn fixed<const N: usize>(&mut self) -> Result<[u8; N], Fault>
        ensures { Reads (λ bytes. bytes) self.old self.new result (read_bytes N self.old) }
    {
        let bytes = self.bytes(N)?;
        let mut array = [0; N];
        array.copy_from_slice(bytes);
        Ok(array)
    }

    /// A count of at most `max` (RFC 4506, section 4.13); a larger one is `Fault::TooLong`.
    #[tactic(auto, unfolding(crate::specs::Reading::read_count))]
    pub fn count(&mut self, max: u32) -> Result<u32, Fault>
        ensures { Reads (λ n. n) self.old self.new result (read_count max self.old) }
    {
        let before = Reader {
            place: self.place,
            rest: self.rest,
        };
        let count = self.u32()?;
        if count > max {
            *self = before;
            return Err(Fault::TooLong);
        }
        Ok(count)
    }

    /// Tests that nothing is left; what is left is malformed at its first byte.
    #[tactic(auto, unfolding(crate::specs::Reading::read_end))]
    pub fn end(&self) -> Result<(), Fault>
        ensures { MatchResult result (λ _. read_end self.now ≡ Ok self.now) (λ f. read_end self.now ≡ Err f) }
    {
        if !self.rest.is_empty() {
            return Err(Fault::Malformed(self.place));
        }
        Ok(())
    }

    /// Bytes after their length, which is at most `max`, and their padding (RFC 4506, section 4.10).
    /// A length over `max` comes before missing bytes, and these before padding that isn't zero.
    #[tactic(auto, unfolding(crate::specs::Reading::read_opaque))]
    pub fn opaque(&mut self, max: u32) -> Result<&'a [u8], Fault>
        ensures { Reads (λ bytes. bytes.now) self.old self.new result (read_opaque max self.old) }
    {
        let before = Reader {
            place: self.place,
            rest: self.rest,
        };
        let len = self.count(max)?;
        let read = self.bytes(len as usize);
        if read.is_err() {
            *self = before;
        }
        read
    }

    /// 0 or 1, as before an optional (RFC 4506, sections 4.4 and 4.19). Another number is malformed, at its own place.
    #[tactic(auto, unfolding(crate::specs::Reading::read_flag))]
    pub fn flag(&mut self) -> Result<bool, Fault>
        ensures { Reads (λ flag. flag) self.old self.new result (read_flag self.old) }
    {
        let before = Reader {
            place: self.place,
            rest: self.rest,
        };
        match self.u32()? {
            0 => Ok(false),
            1 => Ok(true),
            _ => {
                *self = before;
                Err(Fault::Malformed(self.place))
            }
        }
    }
}
