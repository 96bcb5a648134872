//! What is left to chance. The seed decides it, so it is the same each time.

use rand::RngExt;
use rand_chacha::ChaCha12Rng;
use scp_sim_options::Span;

/// A random number of the span. For an empty span, its beginning.
pub fn within(rng: &mut ChaCha12Rng, span: Span) -> u64 {
    if span.from < span.to {
        rng.random_range(span.from..=span.to)
    } else {
        span.from
    }
}

/// Whether something happens that happens this many times in a thousand. Whole percentages are drawn of a hundred.
pub fn happens(rng: &mut ChaCha12Rng, thousandths: u16) -> bool {
    if thousandths == 0 {
        return false;
    }
    let all = u64::from(thousandths);
    if all % 10 == 0 {
        return u64::from(rng.random_range(0..100u8)) < all / 10;
    }
    rng.random_range(0..1_000u64) < all
}
