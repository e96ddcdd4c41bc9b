ghost use Rattle.std.specs.Prelude.{◌≡◌};
ghost use Rattle.hall_history.specs.Passes.{state_at};

use hall_history::PassState;

// How far a pass up to track `to` has come whose next track is this one.
fn state_of(next: u32, to: u32) -> PassState
    ensures { result ≡ state_at next to }
{
    if next == to {
        PassState::Whole
    } else {
        PassState::Straight(next)
    }
}

/// The right to publish the tracks from `from` up to, not including, `to` of a loading trace. It is given
/// back by `seal` or `abandon`, and can't be dropped.
#[derive(Debug)]
pub struct LoadPass {
    /// The id of the trace.
    pub id: u64,
    /// The place of the entry that opened the trace, counted from 1.
    pub place: u64,
    /// Its first track, counted from 0.
    pub from: u32,
    /// The track behind its last.
    pub to: u32,
    /// How far it has come.
    pub state: PassState,
}

impl LoadPass {
    ghost use Rattle.std.specs.Prelude.{◌≡◌, ◌<◌, ℕ};
    ghost use Rattle.hall_trait.specs.Pass.{advanced, IsNext};
    ghost use Rattle.hall_history.specs.Passes.{left_in, state_at};

    /// A pass over all of so many tracks of the trace that the entry at this place opened.
    pub fn new(id: u64, place: u64, tracks: u32) -> LoadPass
        ensures { result ≡ record {
          id = id;
          place = place;
          from = 0;
          to = tracks;
          state = state_at 0 tracks;
        } }
    {
        LoadPass {
            id,
            place,
            from: 0,
            to: tracks,
            state: state_of(0, tracks),
        }
    }

    /// Goes on behind its next track, which was published.
    pub fn advance(&mut self)
        requires { (track : ℕ) → IsNext self.old track → track < self.old.to }
        ensures { self.new ≡ advanced self.old }
    {
        let to = self.to;
        if let PassState::Straight(track) = self.state {
            self.state = state_of(track + 1, to);
        }
    }

    /// How many tracks it has left to publish; none is known where it is broken.
    pub fn left(&self) -> u32
        ensures { result ≡ left_in self.now.state self.now.to }
    {
        match self.state {
            PassState::Straight(next) => self.to.saturating_sub(next),
            PassState::Whole | PassState::Broken => 0,
        }
    }

    /// The id of the trace.
    pub fn id(&self) -> u64
        ensures { result ≡ self.now.id }
    {
        self.id
    }

    /// The place of the entry that opened the trace, counted from 1.
    pub fn place(&self) -> u64
        ensures { result ≡ self.now.place }
    {
        self.place
    }

    /// How far it has come.
    pub fn state(&self) -> PassState
        ensures { result ≡ self.now.state }
    {
        self.state
    }

    /// Its first track, counted from 0.
    pub fn from(&self) -> u32
        ensures { result ≡ self.now.from }
    {
        self.from
    }

    /// The track behind its last.
    pub fn to(&self) -> u32
        ensures { result ≡ self.now.to }
    {
        self.to
    }
}
