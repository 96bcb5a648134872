//! Laws of the definitions. Each is the contract of a function that does nothing.
ghost use Rattle.scp_wire.specs.Fitting.{NamesFit, SaneSetsFit, ShortRecordsFit, ShortEnvelopesFit, WhatIsSpeltFits};
ghost use Rattle.scp_wire.specs.Lanes.{LanesOfSent, WholeFollows};
ghost use Rattle.scp_wire.specs.Parts.{FrontsAreInOrder, LanesArePartByPart, LimitsAreOfTheValue, NumbersNameMessages, OneMoreIsOfLink, OrderIsOfThePeer, OthersHaveNoNumber, PartsSayWhatTheWholeSays, PeersSayAllOfTheirs};
ghost use Rattle.scp_wire.specs.ReaderLaws.{ReadingsAreInOrder, ReadingsAreSent, ReadingsGrow, ReadingsGrowByOne};

/// What is read of a link's items has its shape: lives 1, 2, .., numbers 0, 1, 2, .. in each life, and nothing between
/// the end of a connection and the next one.
pub fn what_is_read_keeps_the_shape()
    ensures { ReadingsAreInOrder }
{}

/// What is read of a connection is what was sent on it: its carried messages, numbered, up to the first bytes without a
/// reading and 1,000,000 at most, and then its end. A batch is sent as its records. That it was opened, and its side
/// messages, are each in their place too.
pub fn what_is_read_is_what_was_sent()
    ensures { ReadingsAreSent }
{}

/// Further items add what they are read as at the reader's place, and nothing that was read changes.
pub fn what_is_read_grows_with_the_items()
    ensures more { ReadingsGrow }
    ensures one { ReadingsGrowByOne }
{}

/// In a slot's lane, what was sent on a connection is the numbers of the messages that name the slot, in order, and then the
/// end. Take the front of a line that is whole, with nothing after its end. In its lane it is the first of these numbers, in
/// order, and at most an end.
pub fn a_lane_follows_what_was_sent()
    ensures lanes { LanesOfSent }
    ensures follows { WholeFollows }
{}

/// What has a link's shape: each front of it has the shape too, and all of it is from the link's peer. A link's items are of the
/// link with one more item that may go next.
pub fn a_beginning_keeps_the_shape()
    ensures front { FrontsAreInOrder }
    ensures peer { OrderIsOfThePeer }
    ensures more { OneMoreIsOfLink }
{}

/// Two parts of what came say of a connection, one after the other, what the whole says, and so in each lane. What came from
/// its peer says all of it.
pub fn parts_say_what_the_whole_says()
    ensures parts { PartsSayWhatTheWholeSays }
    ensures lanes { LanesArePartByPart }
    ensures peers { PeersSayAllOfTheirs }
{}

/// If what came from a link has its shape, each carried message is the one of its number among the messages of its connection.
/// Each number names its message's slot, whatever comes later. What came from another peer has none of these numbers.
pub fn each_number_names_its_message()
    ensures numbers { NumbersNameMessages }
    ensures others { OthersHaveNoNumber }
{}

/// A message breaks a limit exactly where its value doesn't fit, so what has an encoding breaks none.
pub fn what_fits_breaks_no_limit()
    ensures limits { LimitsAreOfTheValue }
{}

/// What surely fits a link: a message with only a hash or a slot, a sane quorum set, a record of at most 4,096 bytes, and all
/// that was decoded. So does an envelope that keeps its own limits and has at most seven votes and seven accepted values.
pub fn what_fits_a_link()
    ensures names { NamesFit }
    ensures set { SaneSetsFit }
    ensures value { ShortRecordsFit }
    ensures envelope { ShortEnvelopesFit }
    ensures spelt { WhatIsSpeltFits }
{}
