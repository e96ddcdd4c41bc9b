use hall_history::{AskIds, Brief};

/// The hold of a running query on one or two traces, as of a place of the history. It is given back by
/// `unpin`, and can't be dropped. In a pin on one trace `second` equals `first`.
#[derive(Debug)]
pub struct Pin {
    /// The ids of the traces.
    pub ids: AskIds,
    /// The place at which they were asked for, counted from 1.
    pub place: u64,
    /// The brief of the first trace.
    pub first: Brief,
    /// The brief of the second.
    pub second: Brief,
}

impl Pin {
    ghost use Rattle.std.specs.Prelude.{◌≡◌, ◌<◌};
    ghost use Rattle.hall_trait.specs.Pin.{brief_at};
    ghost use Rattle.hall_history.specs.Asks.{id_at};

    /// The place at which it was asked for, counted from 1.
    pub fn place(&self) -> u64
        ensures { result ≡ self.now.place }
    {
        self.place
    }

    /// The id of its first trace, for 0, or of its second, for 1.
    pub fn id(&self, which: u8) -> u64
        requires { which < 2 }
        ensures { result ≡ id_at self.now.ids which }
    {
        match self.ids {
            AskIds::One(a) => a,
            AskIds::Two(a, b) => if which == 0 { a } else { b },
        }
    }

    /// The brief of its first trace, for 0, or of its second, for 1.
    pub fn brief(&self, which: u8) -> Brief
        requires { which < 2 }
        ensures { result ≡ brief_at self.now which }
    {
        if which == 0 { self.first } else { self.second }
    }
}
