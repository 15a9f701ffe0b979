// The live roster by the rules, plainly: 64 places, at each nobody or somebody with a number, and who holds which permission as a grid of truths.
// What somebody held who is gone stands in the grid until the place is taken again; it is nobody's.

ghost use Rattle.std.specs.Prelude.{◌<◌, IfSome};

pub const PLACES: usize = 64;

pub const PERMISSIONS: usize = 32;

// Who is at a place, and what whoever took it last holds.
#[derive(Clone, Copy)]
pub struct Place {
    staff: Option<u32>,
    cells: [bool; PERMISSIONS],
}

#[derive(Clone, Copy)]
pub struct Listed {
    places: [Place; PLACES],
}

// What is called: with a staff number, and with the permission.
#[derive(Clone, Copy)]
pub enum Call {
    Hire(u32),
    Leave(u32),
    Grant(u32, u32),
    Revoke(u32, u32),
}

impl Place {
    const FREE: Place = Place {
        staff: None,
        cells: [false; PERMISSIONS],
    };

    pub(crate) fn is_taken(&self) -> bool {
        self.staff.is_some()
    }

    // Who is there; 0 where nobody is.
    pub(crate) fn number(&self) -> u32 {
        self.staff.unwrap_or(0)
    }

    // Whether whoever is here holds permission p.
    pub(crate) fn holds(&self, p: usize) -> bool {
        self.is_taken() && p < PERMISSIONS && self.cells[p]
    }
}

impl Listed {
    pub(crate) fn nobody() -> Listed {
        Listed {
            places: [Place::FREE; PLACES],
        }
    }

    pub(crate) fn places(&self) -> &[Place; PLACES] {
        &self.places
    }

    // Where the number stands.
    fn place_of(&self, number: u32) -> Option<usize>
        ensures { IfSome result (λ at. at < 64) }
    {
        self.places
            .iter()
            .position(|place| place.staff == Some(number))
    }

    // How many are there.
    pub(crate) fn count(&self) -> usize {
        self.places.iter().filter(|place| place.is_taken()).count()
    }

    // Whether the first, second, .. who is there, counted from 0, holds permission p.
    pub(crate) fn row_holds(&self, row: usize, p: usize) -> bool {
        let mut rows = self.places.iter().filter(|place| place.is_taken());
        rows.nth(row).is_some_and(|place| place.holds(p))
    }

    // What a call answers by the rules: the place, or the number of the refusal, which is written out here and not the library's.
    pub(crate) fn answer(&mut self, call: Call) -> Result<usize, u32> {
        match call {
            Call::Hire(number) => self.hire(number),
            Call::Leave(number) => self.leave(number),
            Call::Grant(number, permission) => self.change(number, permission, true),
            Call::Revoke(number, permission) => self.change(number, permission, false),
        }
    }

    // Somebody new, at the first place that nobody has.
    fn hire(&mut self, number: u32) -> Result<usize, u32> {
        if self.place_of(number).is_some() {
            return Err(23);
        }
        let Some(free) = self.places.iter().position(|place| !place.is_taken()) else {
            return Err(24);
        };
        self.places[free] = Place {
            staff: Some(number),
            ..Place::FREE
        };
        Ok(free)
    }

    fn leave(&mut self, number: u32) -> Result<usize, u32> {
        let at = self.place_of(number).ok_or(22u32)?;
        self.places[at].staff = None;
        Ok(at)
    }

    // Holding a permission from now on, or not.
    fn change(&mut self, number: u32, permission: u32, held: bool) -> Result<usize, u32> {
        let p = permission as usize;
        if p >= PERMISSIONS {
            return Err(21);
        }
        let at = self.place_of(number).ok_or(22u32)?;
        self.places[at].cells[p] = held;
        Ok(at)
    }
}
