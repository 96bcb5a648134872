//! A law of what was decoded.
ghost use Rattle.scp_convert.specs.Laws.{EachComesBack};

/// What was decoded is encoded as the bytes that it was decoded from, whatever the coding of either.
pub fn what_is_decoded_is_encoded_again()
    ensures { EachComesBack }
{}
