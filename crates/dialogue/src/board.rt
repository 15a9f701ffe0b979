// What is on the table of whoever speaks: the live roster, and the values of the book that it came from, whose codes name the permissions and whose
// policies can be asked. Without a book the permissions are called 0 to 31, and there is no policy.
ghost use Rattle.std.specs.Prelude.{◌<◌, IfSome};

use live::Roster;
use values::Values;

// `is_heard` says that the last answer could be written.
#[derive(Clone, Copy)]
pub struct Board {
    pub roster: Roster,
    pub values: Values,
    pub is_heard: bool,
}

// The codes 0 to 31.
fn own_codes() -> [u16; 32] {
    std::array::from_fn(|code| code as u16)
}

impl Board {
    // Nobody yet, and no book.
    pub(crate) fn empty() -> Board {
        Board {
            roster: Roster::empty(),
            values: Values {
                codes: own_codes(),
                code_count: 32,
                ..Values::none()
            },
            is_heard: true,
        }
    }

    // With this roster.
    pub(crate) fn with(self, roster: Roster) -> Board {
        Board { roster, ..self }
    }

    pub(crate) fn heard(self, is_heard: bool) -> Board {
        Board { is_heard, ..self }
    }

    // The permission with this code, by its bit.
    pub(crate) fn bit(self, code: u32) -> Option<usize>
        ensures { IfSome result (λ bit. bit < 32) }
    {
        self.values
            .codes
            .iter()
            .take(self.values.code_count)
            .position(|own| u32::from(*own) == code)
    }

    // All permissions that there are.
    pub(crate) fn permissions(self) -> u32 {
        let count = self.values.code_count;
        if count < 32 {
            !(u32::MAX << count)
        } else {
            u32::MAX
        }
    }

    // The row of the roster's table that this staff number has.
    pub(crate) fn row(self, number: u32) -> Option<usize>
        ensures { IfSome result (λ row. row < 64) }
    {
        let numbers = self.roster.numbers();
        numbers
            .iter()
            .take(self.roster.table().rows)
            .position(|own| *own == number)
    }
}
