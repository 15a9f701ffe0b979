// A roster book in the making, entry by entry, by the published layout: a count in one byte before each section, numbers little endian.
use arrayvec::ArrayVec;

// One byte more than the longest book and some besides: what does not fit in is left out.
pub const ROOM: usize = 1100;

// The first `length` bytes are the book. What a cut takes off stays behind it, and a longer one takes it again.
#[derive(Drop)]
pub struct Draft {
    pub bytes: ArrayVec<u8, ROOM>,
    pub length: usize,
}

impl Draft {
    // A book with nothing in it yet.
    pub(crate) fn empty() -> Draft {
        Draft {
            bytes: ArrayVec::new(),
            length: 0,
        }
    }

    // The book, which is all of the bytes where there are not so many.
    pub(crate) fn book(&self) -> &[u8] {
        self.bytes
            .get(..self.length)
            .unwrap_or(self.bytes.as_slice())
    }

    // These behind the others, as far as there is room, over what a cut has left there.
    fn put(&mut self, bytes: &[u8]) {
        for byte in bytes {
            if self.length < ROOM {
                match self.bytes.get_mut(self.length) {
                    Some(place) => *place = *byte,
                    None => {
                        let _fits = self.bytes.try_push(*byte);
                    }
                }
                self.length += 1;
            }
        }
    }

    // The first bytes alone, zeros where there are not so many.
    pub(crate) fn cut(&mut self, length: usize) {
        for _ in self.bytes.len()..length.min(ROOM) {
            let _fits = self.bytes.try_push(0);
        }
        self.length = length;
    }

    pub(crate) fn byte(&mut self, value: u8) {
        self.put(&[value]);
    }

    // The count that a section starts with.
    pub(crate) fn count(&mut self, entries: u8) {
        self.byte(entries);
    }

    // A permission's code.
    pub(crate) fn code(&mut self, code: u16) {
        self.put(&code.to_le_bytes());
    }

    fn four(&mut self, n: u32) {
        self.put(&n.to_le_bytes());
    }

    // A row.
    pub(crate) fn row(&mut self, staff: u32, holdings: u32) {
        self.four(staff);
        self.four(holdings);
    }

    // A row of a new book, with its person number.
    pub(crate) fn account(&mut self, staff: u32, person: u32, holdings: u32) {
        self.four(staff);
        self.four(person);
        self.four(holdings);
    }

    // A policy.
    pub(crate) fn policy(&mut self, task: u32, away: u8, crews: u8, size: u8) {
        self.four(task);
        self.put(&[away, crews, size]);
    }

    // The permissions and rows of book B.
    fn b_rows() -> Draft {
        let mut book = Draft::listed();
        book.count(4);
        for (staff, holdings) in [(101, 3), (102, 1), (103, 2), (104, 3)] {
            book.row(staff, holdings);
        }
        book
    }

    // The published book B.
    pub(crate) fn b() -> Draft {
        let mut book = Draft::b_rows();
        book.count(3);
        for (away, crews, size) in [(1, 2, 2), (2, 2, 2), (0, 3, 1)] {
            book.policy(3, away, crews, size);
        }
        book
    }

    // The permissions of book B.
    pub(crate) fn listed() -> Draft {
        let mut book = Draft::empty();
        book.count(2);
        book.code(10);
        book.code(20);
        book
    }

    // So many permissions, with the codes from 0 on: what is counted is the code.
    pub(crate) fn permissions_to(count: u8) -> Draft {
        let mut book = Draft::empty();
        book.count(count);
        for code in 0..count {
            book.code(u16::from(code));
        }
        book
    }

    // 32 permissions and 64 rows that hold everything, the last with the highest staff number there is. The staff numbers are made of the count; it is
    // no index.
    fn longest_rows() -> Draft {
        let mut book = Draft::permissions_to(32);
        book.count(64);
        for i in 0..64u32 {
            book.row(4294967232 + i, u32::MAX);
        }
        book
    }

    // As long as an old book can be: behind those, 32 policies: everyone may be away, and one crew of any size has to hold everything.
    pub(crate) fn longest() -> Draft {
        let mut book = Draft::longest_rows();
        book.count(32);
        for _ in 0..32u32 {
            book.policy(u32::MAX, 64, 1, 64);
        }
        book
    }
}
