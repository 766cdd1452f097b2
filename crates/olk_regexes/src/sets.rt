//! The sets that an escape names.
use crate::class::Characters;

pub static DIGITS: [Characters; 1] = [Characters::Range { low: 48, high: 57 }];

pub static NO_DIGITS: [Characters; 2] = [
    Characters::Range { low: 0, high: 47 },
    Characters::Range {
        low: 58,
        high: 0x10_ffff,
    },
];

pub static WORDS: [Characters; 4] = [
    Characters::Range { low: 48, high: 57 },
    Characters::Range { low: 65, high: 90 },
    Characters::Range { low: 95, high: 95 },
    Characters::Range { low: 97, high: 122 },
];

pub static NO_WORDS: [Characters; 5] = [
    Characters::Range { low: 0, high: 47 },
    Characters::Range { low: 58, high: 64 },
    Characters::Range { low: 91, high: 94 },
    Characters::Range { low: 96, high: 96 },
    Characters::Range {
        low: 123,
        high: 0x10_ffff,
    },
];

pub static SPACES: [Characters; 10] = [
    Characters::Range { low: 9, high: 13 },
    Characters::Range { low: 32, high: 32 },
    Characters::Range {
        low: 160,
        high: 160,
    },
    Characters::Range {
        low: 5760,
        high: 5760,
    },
    Characters::Range {
        low: 8192,
        high: 8202,
    },
    Characters::Range {
        low: 8232,
        high: 8233,
    },
    Characters::Range {
        low: 8239,
        high: 8239,
    },
    Characters::Range {
        low: 8287,
        high: 8287,
    },
    Characters::Range {
        low: 12288,
        high: 12288,
    },
    Characters::Range {
        low: 65279,
        high: 65279,
    },
];

pub static NO_SPACES: [Characters; 11] = [
    Characters::Range { low: 0, high: 8 },
    Characters::Range { low: 14, high: 31 },
    Characters::Range { low: 33, high: 159 },
    Characters::Range {
        low: 161,
        high: 5759,
    },
    Characters::Range {
        low: 5761,
        high: 8191,
    },
    Characters::Range {
        low: 8203,
        high: 8231,
    },
    Characters::Range {
        low: 8234,
        high: 8238,
    },
    Characters::Range {
        low: 8240,
        high: 8286,
    },
    Characters::Range {
        low: 8288,
        high: 12287,
    },
    Characters::Range {
        low: 12289,
        high: 65278,
    },
    Characters::Range {
        low: 65280,
        high: 0x10_ffff,
    },
];

/// What ends a line.
pub static LINE_ENDS: [Characters; 3] = [
    Characters::Range { low: 10, high: 10 },
    Characters::Range { low: 13, high: 13 },
    Characters::Range {
        low: 8232,
        high: 8233,
    },
];
