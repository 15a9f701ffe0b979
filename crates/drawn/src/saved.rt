// A table as other programs would have saved it.

// Any table has room, with a column more and two bytes at the end of each line.
pub const ROOM: usize = 12000;

// What the way is called, what stands at the front, between two cells and at the end of a line, and whether there is a column of names.
#[derive(Clone, Copy)]
pub struct Way {
    pub(crate) name: &'static str,
    front: &'static [u8],
    between: u8,
    behind: &'static [u8],
    has_names: bool,
}

// Where in a table one is: at the beginning of a line or further on, in a heading or another line.
#[derive(Clone, Copy)]
struct Place {
    begins: bool,
    heading: bool,
}

impl Way {
    // As it is shown.
    fn plain() -> Way {
        Way {
            name: "as shown",
            front: b"",
            between: b',',
            behind: b"\n",
            has_names: false,
        }
    }

    // Everything at once.
    fn mixed() -> Way {
        Way {
            name: "semicolons, carriage returns, names and a byte order mark",
            front: b"\xef\xbb\xbf",
            between: b';',
            behind: b"\r\n",
            has_names: true,
        }
    }

    // All ways, each once.
    pub(crate) fn all() -> [Way; 6] {
        let plain = Way::plain();
        [
            plain,
            Way {
                name: "semicolons",
                between: b';',
                ..plain
            },
            Way {
                name: "tabs",
                between: b'\t',
                ..plain
            },
            Way {
                name: "carriage returns",
                behind: b"\r\n",
                ..plain
            },
            Way {
                name: "a column of names",
                has_names: true,
                ..plain
            },
            Way::mixed(),
        ]
    }
}

impl Place {
    // Behind a byte. A line break at the beginning of a line ends an empty line, and a heading follows.
    fn behind(self, byte: u8) -> Place {
        if byte == b'\n' {
            return Place {
                begins: true,
                heading: self.begins,
            };
        }
        Place {
            begins: false,
            heading: self.heading,
        }
    }
}

// A cell of the column of names.
fn put_cell(out: &mut [u8], at: usize, heading: bool) -> usize {
    if heading {
        return text::word(out, at, b"#Name");
    }
    text::word(out, at, b"\"Doe, \"\"J.\"\"; 2\tx\"")
}

// The same where one stands: in front of each line that is not empty.
fn put_name(out: &mut [u8], at: usize, way: Way, place: Place, byte: u8) -> usize {
    if !way.has_names || !place.begins || byte == b'\n' {
        return at;
    }
    let next = put_cell(out, at, place.heading);
    text::put(out, next, way.between)
}

// A byte of the table.
fn put_byte(out: &mut [u8], at: usize, way: Way, byte: u8) -> usize {
    match byte {
        b',' => text::put(out, at, way.between),
        b'\n' => text::word(out, at, way.behind),
        _ => text::put(out, at, byte),
    }
}

// The table at the front of the buffer.
pub(crate) fn put(table: &[u8], out: &mut [u8], way: Way) -> usize {
    let mut at = text::word(out, 0, way.front);
    let mut place = Place {
        begins: true,
        heading: true,
    };
    for &byte in table {
        let named = put_name(out, at, way, place, byte);
        at = put_byte(out, named, way, byte);
        place = place.behind(byte);
    }
    at
}
