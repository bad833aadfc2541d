// The lines. Those of one table are read in turn, with one table of names.

pub const QUESTIONS: &[&[u8]] = &[
    b"Lamp:<many>",
    b"Lamp:<many old>",
    b"  Lamp : < old 'old' 'Old' > % two names",
    b"Sun:<>",
    b"",
    b"  % c",
    b"New:<new b\x01>",
    b"Lamp:<old>",
];

pub const FAULTS: &[&[u8]] = &[
    b"Lamp<many>",
    b"Lamp:<Many>",
    b"Lamp:<a> b",
    b"Lamp:<a>.",
    b"Lamp:<a",
    b"Lamp: ",
    b"lamp:<a>",
    b"'Lamp':<a>",
    b"Lamp:<a>\x7f",
    b"Lamp:<a 'b>",
    b"Lamp:<''>",
];

pub const LONG: &[(usize, &[u8])] = &[
    (32, b">"),
    (33, b">"),
    (33, b">."),
    (510, b">"),
    (510, b"> "),
];
