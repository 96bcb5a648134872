//! The bytes of messages.

/// The message of an envelope of node 1 on slot 1: a nomination that votes for the operation list "put a 1".
pub const ENVELOPE: [u8; 124] = [
    0, 0, 0, 1, 0, 0, 0, 0, // the kind, the type of the key
    1, 1, 1, 1, 1, 1, 1, 1, 1, 1, 1, 1, 1, 1, 1, 1, // the node
    1, 1, 1, 1, 1, 1, 1, 1, 1, 1, 1, 1, 1, 1, 1, 1, //
    0, 0, 0, 0, 0, 0, 0, 1, 0, 0, 0, 3, // the slot, NOMINATE
    2, 0xe6, 1, 0x26, 0x81, 0xb3, 0x3b, 0xa8, 0xe6, 0xd2, 0xee, 0x7e, 0xfd, 6, 0x9c, 0xab, // the hash
    0x8c, 0xe9, 0xbe, 0xa8, 0xc9, 0xf4, 0x9e, 0xd0, 0xf5, 0x86, 0x9d, 0x2c, 0xd7, 0x84, 0x6f, 0x3f, //
    0, 0, 0, 1, 0, 0, 0, 0x18, // one vote, its length
    0, 0, 0, 1, 0, 0, 0, 0, 0, 0, 0, 1, 0x61, 0, 0, 0, // one operation, put, its key
    0, 0, 0, 1, 0x31, 0, 0, 0, // its value
    0, 0, 0, 0, 0, 0, 0, 0, // nothing accepted, no signature
];

/// A PREPARE of node 3 on slot 2 with both optional ballots, each of the value 9, and a signature of one byte.
pub const PREPARE: [u8; 144] = [
    0, 0, 0, 1, 0, 0, 0, 0, // the kind, the type of the key
    3, 3, 3, 3, 3, 3, 3, 3, 3, 3, 3, 3, 3, 3, 3, 3, // the node
    3, 3, 3, 3, 3, 3, 3, 3, 3, 3, 3, 3, 3, 3, 3, 3, //
    0, 0, 0, 0, 0, 0, 0, 2, 0, 0, 0, 0, // the slot, PREPARE
    5, 5, 5, 5, 5, 5, 5, 5, 5, 5, 5, 5, 5, 5, 5, 5, // the hash
    5, 5, 5, 5, 5, 5, 5, 5, 5, 5, 5, 5, 5, 5, 5, 5, //
    0, 0, 0, 3, 0, 0, 0, 1, 9, 0, 0, 0, // the ballot
    0, 0, 0, 1, 0, 0, 0, 2, 0, 0, 0, 1, 9, 0, 0, 0, // prepared
    0, 0, 0, 1, 0, 0, 0, 1, 0, 0, 0, 1, 9, 0, 0, 0, // prepared prime
    0, 0, 0, 1, 0, 0, 0, 2, // the lowest and the highest counter
    0, 0, 0, 1, 7, 0, 0, 0, // the signature
];

/// Asks for the set of a hash.
pub const GET_SET: [u8; 36] = [
    0, 0, 0, 2, 0, 1, 2, 3, 4, 5, 6, 7, 8, 9, 10, 11, 12, 13, 14, 15, // the kind, the hash
    16, 17, 18, 19, 20, 21, 22, 23, 24, 25, 26, 27, 28, 29, 30, 31, //
];

/// Answers that there is no such set.
pub const NO_SET: [u8; 36] = [
    0, 0, 0, 4, 7, 7, 7, 7, 7, 7, 7, 7, 7, 7, 7, 7, 7, 7, 7, 7, // the kind, the hash
    7, 7, 7, 7, 7, 7, 7, 7, 7, 7, 7, 7, 7, 7, 7, 7, //
];

/// The quorum set of two of three nodes.
pub const TWO_OF_THREE: [u8; 124] = [
    0, 0, 0, 3, 0, 0, 0, 2, 0, 0, 0, 3, // the kind, the threshold, three nodes
    0, 0, 0, 0, 1, 1, 1, 1, 1, 1, 1, 1, 1, 1, 1, 1, 1, 1, 1, 1, // the type of the key, the node
    1, 1, 1, 1, 1, 1, 1, 1, 1, 1, 1, 1, 1, 1, 1, 1, //
    0, 0, 0, 0, 2, 2, 2, 2, 2, 2, 2, 2, 2, 2, 2, 2, 2, 2, 2, 2, // the second node
    2, 2, 2, 2, 2, 2, 2, 2, 2, 2, 2, 2, 2, 2, 2, 2, //
    0, 0, 0, 0, 3, 3, 3, 3, 3, 3, 3, 3, 3, 3, 3, 3, 3, 3, 3, 3, // the third
    3, 3, 3, 3, 3, 3, 3, 3, 3, 3, 3, 3, 3, 3, 3, 3, //
    0, 0, 0, 0, // no inner set
];

/// A quorum set of one inner set of one node.
pub const NESTED: [u8; 64] = [
    0, 0, 0, 3, // the kind
    0, 0, 0, 1, 0, 0, 0, 0, 0, 0, 0, 1, // the threshold, no nodes, one inner set
    0, 0, 0, 1, 0, 0, 0, 1, 0, 0, 0, 0, // its threshold, one node, the type of the key
    9, 9, 9, 9, 9, 9, 9, 9, 9, 9, 9, 9, 9, 9, 9, 9, // the node
    9, 9, 9, 9, 9, 9, 9, 9, 9, 9, 9, 9, 9, 9, 9, 9, //
    0, 0, 0, 0, // no inner set
];

/// A quorum set of four inner levels, with no nodes.
pub const FOUR_INNER_LEVELS: [u8; 64] = [
    0, 0, 0, 3, // the kind
    0, 0, 0, 0, 0, 0, 0, 0, 0, 0, 0, 1, // a set with one inner set
    0, 0, 0, 0, 0, 0, 0, 0, 0, 0, 0, 1, // the first level
    0, 0, 0, 0, 0, 0, 0, 0, 0, 0, 0, 1, // the second
    0, 0, 0, 0, 0, 0, 0, 0, 0, 0, 0, 1, // the third
    0, 0, 0, 0, 0, 0, 0, 0, 0, 0, 0, 0, // the fourth
];

/// A quorum set of five inner levels, with no nodes.
pub const FIVE_INNER_LEVELS: [u8; 76] = [
    0, 0, 0, 3, // the kind
    0, 0, 0, 0, 0, 0, 0, 0, 0, 0, 0, 1, // a set with one inner set
    0, 0, 0, 0, 0, 0, 0, 0, 0, 0, 0, 1, // the first level
    0, 0, 0, 0, 0, 0, 0, 0, 0, 0, 0, 1, // the second
    0, 0, 0, 0, 0, 0, 0, 0, 0, 0, 0, 1, // the third
    0, 0, 0, 0, 0, 0, 0, 0, 0, 0, 0, 1, // the fourth
    0, 0, 0, 0, 0, 0, 0, 0, 0, 0, 0, 0, // the fifth
];

/// Asks for the record of slot 72,623,859,790,382,856.
pub const GET_RECORD: [u8; 12] = [0, 0, 0, 5, 1, 2, 3, 4, 5, 6, 7, 8];

/// The record of slot 1 whose value is the operation list "put a 1".
pub const RECORD: [u8; 40] = [
    0, 0, 0, 6, 0, 0, 0, 0, 0, 0, 0, 1, 0, 0, 0, 0x18, // the kind, the slot, the length
    0, 0, 0, 1, 0, 0, 0, 0, 0, 0, 0, 1, 0x61, 0, 0, 0, // one operation, put, its key
    0, 0, 0, 1, 0x31, 0, 0, 0, // its value
];

/// A record of slot 1 with a value of one byte.
pub const ONE_BYTE: [u8; 20] = [
    0, 0, 0, 6, 0, 0, 0, 0, 0, 0, 0, 1, 0, 0, 0, 1, 0x31, 0, 0, 0,
];

/// The records of slots 1 to 3: the operation lists "put a 1", "put b 2" and "delete a".
pub const BATCH: [u8; 92] = [
    0, 0, 0, 7, 0, 0, 0, 0, 0, 0, 0, 1, 0, 0, 0, 3, // the kind, the first slot, three values
    0, 0, 0, 0x18, 0, 0, 0, 1, 0, 0, 0, 0, 0, 0, 0, 1, 0x61, 0, 0, 0, // the first value
    0, 0, 0, 1, 0x31, 0, 0, 0, //
    0, 0, 0, 0x18, 0, 0, 0, 1, 0, 0, 0, 0, 0, 0, 0, 1, 0x62, 0, 0, 0, // the second
    0, 0, 0, 1, 0x32, 0, 0, 0, //
    0, 0, 0, 0x10, 0, 0, 0, 1, 0, 0, 0, 1, 0, 0, 0, 1, 0x61, 0, 0, 0, // the third
];
