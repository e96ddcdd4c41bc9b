ghost use Rattle.std.specs.Prelude.{◌≡◌, IfNone, IfSome, SomeIff};
ghost use Rattle.event_checks.specs.Front.{IsFront, MayCome, front_after};
ghost use Rattle.trace_base.specs.Stream.{IsLegal};
ghost use Rattle.trace_base.specs.declared.stream.Event.TheVariants.{Enter, Leave};

use trace_base::{Event, MAX_FUNCTIONS, MAX_OPEN_CALLS, MAX_STATE_EVENTS, TrackStream};

/// The front of a stream, as a pass over its events keeps it: how many calls are open, when its last event came
/// or, where there is none, the stream began (nanoseconds), and how many calls it has.
#[derive(Clone, Copy, Debug)]
pub struct Front {
    pub depth: usize,
    pub last: u64,
    pub calls: u32,
}

impl Front {
    // With one call more, if it may come.
    fn entered(&self, function: u32, time: u64) -> Option<Front>
        ensures { SomeIff result (MayCome self.now (Enter function time))
            (front_after self.now (Enter function time)) }
    {
        if self.last <= time
            && function >= 1
            && function <= MAX_FUNCTIONS
            && self.depth < MAX_OPEN_CALLS
            && self.calls < MAX_STATE_EVENTS
        {
            Some(Front {
                depth: self.depth + 1,
                last: time,
                calls: self.calls + 1,
            })
        } else {
            None
        }
    }

    // With its innermost call ended, if there is one that may end.
    fn left(&self, time: u64) -> Option<Front>
        ensures { SomeIff result (MayCome self.now (Leave time)) (front_after self.now (Leave time)) }
    {
        if self.last <= time && self.depth >= 1 {
            Some(Front {
                depth: self.depth - 1,
                last: time,
                calls: self.calls,
            })
        } else {
            None
        }
    }

    /// The front with this event, if it may come next.
    pub fn after(&self, event: Event) -> Option<Front>
        ensures { SomeIff result (MayCome self.now event) (front_after self.now event) }
    {
        match event {
            Event::Enter(function, time) => self.entered(function, time),
            Event::Leave(time) => self.left(time),
        }
    }
}

/// The front that all events of a stream are, if each may come behind those before it.
pub fn whole_front(s: &TrackStream) -> Option<Front>
    ensures some { IfSome result (IsFront s.now.start s.now.events) }
    ensures none { IfNone result (¬ IsLegal s.now) }
{
    let mut front = Front {
        depth: 0,
        last: s.start,
        calls: 0,
    };
    for event in s.events.as_slice() {
        match front.after(*event) {
            Some(next) => front = next,
            None => return None,
        }
    }
    Some(front)
}
