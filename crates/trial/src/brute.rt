// The decision by trying everything: an absence blocks if no way of putting each present row into one of the crews, or into none, makes every
// crew good.
use crate::plain::{Duty, PERMISSIONS, ROWS};

// Where each row is: 0 in no crew, c in the crew numbered c, from 1.
#[derive(Clone, Copy)]
struct Way {
    place: [usize; ROWS],
}

impl Way {
    // The next way, counting up with a digit for each present row; none where this was the last.
    fn next(mut self, duty: &Duty, absent: &[bool; ROWS]) -> Option<Way> {
        for (row, place) in self.place.iter_mut().enumerate() {
            if row < duty.rows && !absent[row] {
                if *place < duty.crews {
                    *place += 1;
                    return Some(self);
                }
                *place = 0;
            }
        }
        None
    }

    fn members(&self, crew: usize) -> usize {
        self.place.iter().filter(|place| **place == crew).count()
    }

    // Whether a member of the crew holds permission p.
    fn held(&self, duty: &Duty, crew: usize, p: usize) -> bool {
        self.place
            .iter()
            .enumerate()
            .any(|(row, place)| *place == crew && duty.holds(row, p))
    }

    // Whether the crew holds the whole task.
    fn covers(&self, duty: &Duty, crew: usize) -> bool {
        (0..PERMISSIONS).all(|p| !duty.wants(p) || self.held(duty, crew, p))
    }

    // Whether the crew has as many members as it may and has to have.
    fn fits(&self, duty: &Duty, crew: usize) -> bool {
        let members = self.members(crew);
        members <= duty.size && members >= duty.least()
    }

    // Whether each crew is within the sizes and covers the task. Crews are disjoint since a row is in one place.
    fn is_good(&self, duty: &Duty) -> bool {
        (1..=duty.crews).all(|crew| self.fits(duty, crew) && self.covers(duty, crew))
    }
}

// Six rows in five places make 15,625 ways: a count of turns, since a proved loop has to end, and no index.
const WAYS: usize = 15625;

// Whether no crew list exists with these rows absent: each way is looked at.
pub(crate) fn blocks(duty: &Duty, absent: &[bool; ROWS]) -> bool {
    let mut way = Way { place: [0; ROWS] };
    for _ in 0..WAYS {
        if way.is_good(duty) {
            return false;
        }
        let Some(next) = way.next(duty, absent) else {
            return true;
        };
        way = next;
    }
    true
}
