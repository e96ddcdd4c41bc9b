//! One pass over the events of one stream.
ghost use Rattle.std.specs.Prelude.{◌≡◌, ◌+◌, ◌-◌, ◌≤◌, min, max, fold, count_by, IfOk, OnOk};
ghost use Rattle.std.specs.Prelude.{if◌then◌else◌, ◌&&◌};
ghost use Rattle.event_model.specs.Part.{has};
ghost use Rattle.trace_base.specs.Flat.{calls_in, enters_in, function_of, is_within, time_with};
ghost use Rattle.trace_base.specs.Paths.{calls_making};
ghost use Rattle.trace_base.specs.Stream.{time_of, is_enter, stack_step, IsLegal};
ghost use Rattle.trace_base.specs.declared.limits.TheConstants.{MAX_STATE_EVENTS, MAX_TIME};

use crate::part::{Part, runs};
use std::alloc::Global;
use trace_base::{Event, Memory, TrackStream};

// When the event comes, in nanoseconds.
fn time(event: Event) -> u64
    ensures { result ≡ time_of event }
{
    match event {
        Event::Enter(_, t) => t,
        Event::Leave(t) => t,
    }
}

// The function that the event enters, or 0.
fn function(event: Event) -> u32
    ensures { result ≡ function_of event }
{
    match event {
        Event::Enter(f, _) => f,
        Event::Leave(_) => 0,
    }
}

/// Takes the call stack, the outermost call first, over the event.
pub fn step(stack: &mut Vec<u32>, event: Event) -> Result<(), Memory>
    ensures { OnOk result (stack.new.items ≡ stack_step stack.old.items event) }
{
    match event {
        Event::Enter(f, _) => stack.push(f)?,
        Event::Leave(_) => {
            stack.pop();
        }
    }
    Ok(())
}

// The length of the overlap of [from, to) and [a, b).
fn clip_of(from: u64, to: u64, a: u64, b: u64) -> u64
    ensures { result ≡ min to b - max from a }
{
    to.min(b).saturating_sub(from.max(a))
}

// What the time from `from` to `to` with this call stack adds to the part's time within [a, b).
fn time_here(part: Part<'_>, stack: &[u32], from: u64, to: u64, a: u64, b: u64) -> u64
    ensures { result ≡ (if has part.entry stack.now then min to b - max from a else 0) }
{
    if runs(part, stack) {
        clip_of(from, to, a, b)
    } else {
        0
    }
}

/// The time within [a, b) in which the part runs, in nanoseconds.
pub fn time_in(
    alloc: Global,
    s: &TrackStream,
    part: Part<'_>,
    a: u64,
    b: u64,
) -> Result<u64, Memory>
    requires { IsLegal s.now }
    ensures exact { IfOk result (λ t. t ≡ time_with (has part.entry) a b s.now) }
    ensures within_limit { IfOk result (λ t. t ≤ MAX_TIME) }
{
    let mut stack = Vec::new(alloc);
    let mut from = s.start;
    let mut total = 0;
    for event in s.events.as_slice() {
        let to = time(*event);
        total += time_here(part, stack.as_slice(), from, to, a, b);
        step(&mut stack, *event)?;
        from = to;
    }
    total += time_here(part, stack.as_slice(), from, s.end, a, b);
    Ok(total)
}

// Whether the event begins a call of the function within [a, b).
fn enters(event: Event, f: u32, a: u64, b: u64) -> bool
    ensures { result ≡ enters_in f a b event }
{
    match event {
        Event::Enter(g, t) => g == f && (a <= t && t < b),
        Event::Leave(_) => false,
    }
}

/// The calls of the function that begin within [a, b).
#[tactic(auto, unfolding(trace_base::specs::Flat::calls_in))]
pub fn calls_of(s: &TrackStream, f: u32, a: u64, b: u64) -> u64
    requires { IsLegal s.now }
    ensures exact { result ≡ calls_in f a b s.now }
    ensures within_limit { result ≤ MAX_STATE_EVENTS }
{
    let mut calls = 0;
    for event in s.events.as_slice() {
        if enters(*event, f, a, b) {
            calls += 1;
        }
    }
    calls
}

/// The greatest function that the stream enters, or the number so far where that is greater.
pub fn greatest_in(s: &TrackStream, so_far: u32) -> u32
    ensures { result ≡ fold (λ m e. max m (function_of e)) so_far s.now.events }
{
    let mut greatest = so_far;
    for event in s.events.as_slice() {
        greatest = greatest.max(function(*event));
    }
    greatest
}

// Whether the event begins a call within [a, b).
fn begins_within(event: Event, a: u64, b: u64) -> bool
    ensures { result ≡ (is_enter event && is_within a b (time_of event)) }
{
    match event {
        Event::Enter(_, t) => a <= t && t < b,
        Event::Leave(_) => false,
    }
}

// One where the event begins a call within [a, b) after which the part runs, else none.
fn call_into(event: Event, part: Part<'_>, stack: &[u32], a: u64, b: u64) -> u64
    ensures exact { result ≡ (if (is_enter event && is_within a b (time_of event)) && has part.entry stack.now
        then 1 else 0) }
    ensures one { result ≤ 1 }
{
    u64::from(begins_within(event, a, b) && runs(part, stack))
}

/// The calls that begin within [a, b) and after which the part runs.
#[tactic(auto, unfolding(trace_base::specs::Paths::calls_making))]
pub fn calls_into(
    alloc: Global,
    s: &TrackStream,
    part: Part<'_>,
    a: u64,
    b: u64,
) -> Result<u64, Memory>
    ensures { IfOk result (λ n. n ≡ calls_making (has part.entry) a b s.now) }
{
    let mut stack = Vec::new(alloc);
    let mut calls = 0;
    let events = s.events.as_slice();
    for event in events {
        step(&mut stack, *event)?;
        calls += call_into(*event, part, stack.as_slice(), a, b);
    }
    Ok(calls)
}
