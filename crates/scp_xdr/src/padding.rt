ghost use Rattle.std.specs.Prelude.{◌≡◌, ◌<◌};
ghost use Rattle.scp_xdr.specs.Kind.{padding_len as zeros_behind};

/// How many zero bytes follow `len` bytes to make them a multiple of 4 (RFC 4506, sections 4.9 and
/// 4.10).
#[inline]
pub fn padding_len(len: usize) -> usize
    ensures exact { result ≡ zeros_behind len }
    ensures few { result < 4 }
{
    (4 - len % 4) % 4
}
