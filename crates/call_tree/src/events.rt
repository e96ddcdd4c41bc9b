ghost use Rattle.std.specs.Prelude.{◌≡◌, ◌+◌, ◌≤◌, ◌==◌, [], ◌∷◌, ◌++◌, if◌then◌else◌, IfOk, OnOk};
ghost use Rattle.node_key.specs.Events.{events};
ghost use Rattle.trace_base.specs.declared.stream.Event.TheVariants.{Enter, Leave};

use node_key::CallTree;
use std::alloc::Global;
use trace_base::{Event, MAX_TIME, Memory, Seq};

// Adds the Enter of a call, and nothing for a group.
fn push_enter(list: &mut Seq<Event>, func: u32, time: u64) -> Result<(), Memory>
    ensures { OnOk result (list.new ≡ list.old ++ (if func == 0 then [] else Enter func time ∷ [])) }
{
    if func == 0 {
        return Ok(());
    }
    list.push(Event::Enter(func, time))
}

// Adds the Leave of a call, and nothing for a group.
fn push_leave(list: &mut Seq<Event>, func: u32, time: u64) -> Result<(), Memory>
    ensures { OnOk result (list.new ≡ list.old ++ (if func == 0 then [] else Leave time ∷ [])) }
{
    if func == 0 {
        return Ok(());
    }
    list.push(Event::Leave(time))
}

// Adds the events of a tree that begins at `at`.
fn push_events(list: &mut Seq<Event>, t: &CallTree, at: u64) -> Result<(), Memory>
    requires { at + t.now.dur ≤ MAX_TIME }
    ensures { OnOk result (list.new ≡ list.old ++ events t.now at) }
{
    let func = t.func();
    let end = at + t.dur();
    push_enter(list, func, at)?;
    let mut from = at;
    for i in 0..t.len() {
        let kid = t.kid(i);
        let start = from + t.gap(i);
        push_events(list, kid, start)?;
        from = start + kid.dur();
    }
    push_leave(list, func, end)?;
    Ok(())
}

/// The events of a tree that begins at `start`, in nanoseconds: for each call its Enter, the events of its
/// kids and its Leave; a group has none of its own. It ends within the greatest time.
pub fn events_of(alloc: Global, t: &CallTree, start: u64) -> Result<Seq<Event>, Memory>
    requires { start + t.now.dur ≤ MAX_TIME }
    ensures { IfOk result (λ list. list ≡ events t.now start) }
{
    let mut list = Seq::new(alloc);
    push_events(&mut list, t, start)?;
    Ok(list)
}
