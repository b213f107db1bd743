// The hold record, and the guard that restores it.
ghost use Rattle.std.specs.Prelude.{◌≡◌, Some, None};

use frames::Hold;

// One hold, a net and the bit that it has in every frame, or none.
#[derive(Drop)]
pub struct HoldRecord {
    hold: Option<Hold>,
}

// While it lives, the record shows the hold that it was made with; then the earlier one again, on every way out.
pub struct Held<'a> {
    holds: &'a mut HoldRecord,
    earlier: Option<Hold>,
}

impl Drop for Held<'_> {
    fn drop(self)
        ensures { self.exit.0.now.hold ≡ self.entry.earlier }
    {
        self.holds.hold = self.earlier;
        let Held {
            holds: _,
            earlier: _,
        } = self;
    }
}

impl HoldRecord {
    pub fn new() -> HoldRecord
        ensures { result.hold ≡ None }
    {
        HoldRecord { hold: None }
    }

    pub fn hold(&self) -> Option<Hold>
        ensures { result ≡ self.now.hold }
    {
        self.hold
    }

    // Never refused.
    pub fn set(&mut self, hold: Hold) -> Held<'_>
        ensures place { result.holds.ghost_name ≡ self.entry.ghost_name }
        ensures hold { result.holds.now.hold ≡ Some hold }
        ensures earlier { result.earlier ≡ self.old.hold }
    {
        let earlier = self.hold.replace(hold);
        Held {
            holds: self,
            earlier,
        }
    }
}

impl Held<'_> {
    // The hold that the record shows now.
    pub fn hold(&self) -> Option<Hold>
        ensures { result ≡ self.now.holds.now.hold }
    {
        self.holds.hold
    }
}
