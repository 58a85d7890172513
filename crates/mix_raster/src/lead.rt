//! Where the places along a side of a band lead in a source.
ghost use Rattle.std.specs.Prelude.{◌≡◌, ◌+◌, ◌-◌, ◌<◌, ◌≤◌, ◌^◌, ℕ, length, take, drop, get_or};
ghost use Rattle.std.specs.Prelude.{Some, IsTrue, IfOk};
ghost use Rattle.std.specs.List.{list_all};
ghost use Rattle.mix_model.specs.Plans.{is_step};
ghost use Rattle.mix_raster.specs.Axes.{axis_reached, led_by, IsAxis};
ghost use Rattle.mix_raster.specs.Spans.{cut, span_led, IsClipped, IsSpan, Leads};
ghost use Rattle.mix_raster.specs.Ways.{places_of};

use crate::axis::{Axis, axis_of};
use crate::turns::{exchange, turns_aside};
use mix_base::NoMemory;
use mix_model::Step;
use std::alloc::Global;

/// Which places along a side of a band lead into a source, and where.
#[derive(Drop)]
pub(crate) struct Lead {
    /// What each of so many places leads to, and then room.
    pub table: Vec<u32>,
    /// The first place that leads somewhere.
    pub first: usize,
    /// How many do, one after the other.
    pub count: usize,
}

/// Which places lead along a side of the source by the steps from one on.
fn span_from(steps: &[Step], from: usize, down: bool, side: u32) -> (u32, u32)
    requires steps { IsTrue (list_all is_step steps.now) }
    requires from { from ≤ length steps.now }
    ensures value { result ≡ span_led down (drop from steps.now) side }
{
    if from == steps.len() {
        return (0, side);
    }
    let step = &steps[from];
    let turned = exchange(turns_aside(step), down);
    axis_of(step, down).span(span_from(steps, from + 1, turned, side))
}

/// Which places lead along a side of the source by all steps.
pub(crate) fn span_of(steps: &[Step], down: bool, side: u32) -> (u32, u32)
    requires steps { IsTrue (list_all is_step steps.now) }
    ensures span { IsSpan result (λ z. cut side (axis_reached down steps.now z)) }
{
    span_from(steps, 0, down, side)
}

/// The part of a span that is within so many places, from one on.
fn clip(span: (u32, u32), from: u32, total: usize) -> (usize, usize)
    ensures clipped { IsClipped span from total result }
{
    let first = (span.0.saturating_sub(from) as usize).min(total);
    let end = (span.1.saturating_sub(from) as usize).min(total);
    (first, end.max(first))
}

/// Counts so many places from one on.
fn count_from(table: &mut [u32], count: usize, from: u32)
    requires within { count ≤ length table.old }
    requires fits { from + count < 2 ^ 32 }
    ensures counted { (i : ℕ) → i < count → get_or table.new i 0 ≡ from + i }
{
    for i in 0..count {
        table[i] = from + i as u32;
    }
}

/// Leads so many places on by an axis, where it leads them anywhere.
fn lead_on(table: &mut [u32], count: usize, axis: &Axis)
    requires within { count ≤ length table.old }
    requires axis { IsAxis axis.now }
    ensures led { (i u : ℕ) → i < count → led_by axis.now (get_or table.old i 0) ≡ Some u →
        get_or table.new i 0 ≡ u }
{
    for i in 0..count {
        table[i] = axis.lead_or_stay(table[i]);
    }
}

/// Leads so many places on by all steps, where these lead them anywhere.
fn follow(table: &mut [u32], count: usize, steps: &[Step], down: bool)
    requires within { count ≤ length table.old }
    requires steps { IsTrue (list_all is_step steps.now) }
    ensures led { (i u : ℕ) → i < count →
        axis_reached down steps.now (get_or table.old i 0) ≡ Some u → get_or table.new i 0 ≡ u }
{
    let mut goes_down = down;
    for step in steps {
        let axis = axis_of(step, goes_down);
        lead_on(table, count, &axis);
        goes_down = exchange(turns_aside(step), goes_down);
    }
}

/// Finds the first of so many places, from one on, that leads along a side of the source, and how many
/// do. The table then has what these lead to.
fn find_in(
    table: &mut [u32],
    steps: &[Step],
    down: bool,
    side: u32,
    from: u32,
    total: usize,
) -> (usize, usize)
    requires steps { IsTrue (list_all is_step steps.now) }
    requires within { total ≤ length table.old }
    requires fits { from + total < 2 ^ 32 }
    ensures leads { Leads (λ z. cut side (axis_reached down steps.now z)) from total result.0
        (take result.1 table.new) }
    ensures short { result.1 ≤ length table.new }
{
    let (first, end) = clip(span_of(steps, down, side), from, total);
    let count = end - first;
    count_from(table, count, from + first as u32);
    follow(table, count, steps, down);
    (first, count)
}

impl Lead {
    /// Room for so many places, which lead nowhere yet.
    pub fn new(alloc: Global, most: u32) -> Result<Lead, NoMemory>
        ensures room { IfOk result (λ lead. length lead.table.items ≡ most) }
    {
        Ok(Lead {
            table: vec![in alloc; 0; most as usize]?,
            first: 0,
            count: 0,
        })
    }

    /// Leads so many places, from one on, along a side of the source.
    pub fn find(&mut self, steps: &[Step], down: bool, side: u32, from: u32, total: u32)
        requires steps { IsTrue (list_all is_step steps.now) }
        requires within { total ≤ length self.old.table.items }
        requires fits { from + total < 2 ^ 32 }
        ensures leads { Leads (λ z. cut side (axis_reached down steps.now z)) from total
            self.new.first (places_of self.new) }
        ensures short { self.new.count ≤ length self.new.table.items }
        ensures room { length self.new.table.items ≡ length self.old.table.items }
    {
        let table = self.table.as_mut_slice();
        let (first, count) = find_in(table, steps, down, side, from, total as usize);
        self.first = first;
        self.count = count;
    }

    /// What each place leads to.
    pub fn places(&self) -> &[u32]
        requires short { self.now.count ≤ length self.now.table.items }
        ensures value { result.now ≡ places_of self.now }
    {
        &self.table[..self.count]
    }
}
