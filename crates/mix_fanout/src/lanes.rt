//! Plain work on the list of the connections.
ghost use Rattle.std.specs.Prelude.{◌≡◌, ◌≤◌, IfOk, OnOk, OnErr, IsTrue, map, filter, find, not};
ghost use Rattle.std.specs.Prelude.{◌+◌, true, option_copied, vec_capacity, vec_len, ℕ};
ghost use Rattle.std.specs.List.{list_any};
ghost use Rattle.mix_fanout.specs.Keys.{HasRoom, cleared_line, cut_line, is_cut_line, is_line};
ghost use Rattle.mix_fanout.specs.Keys.{lane_of};
ghost use Rattle.mix_fanout.specs.Keys.{masked_line, posted_line, takers, with_room};
ghost use Rattle.mix_fanout.specs.Lanes.{is_cut, said_to};

use crate::kept::Kept;
use crate::lane::Lane;
use crate::store::texts;
use crate::waiting::Waiting;
use mix_base::{ConnId, NoMemory};
use slab::Slab;
use std::alloc::Global;

/// Whether the connection is there.
pub fn has(lanes: &[Lane], conn: ConnId) -> bool
    ensures value { result ≡ list_any (is_line conn) lanes.now }
{
    lanes.iter().any(|lane| lane.is(conn))
}

/// The connection, if it is there.
pub fn lane_at<'a>(lanes: &'a [Lane], conn: ConnId) -> Option<&'a Lane>
    ensures value { option_copied result ≡ find (is_line conn) lanes.now }
{
    lanes.iter().find(|lane| lane.is(conn))
}

/// Whether the connection is there and cut.
pub fn is_cut(lanes: &[Lane], conn: ConnId) -> bool
    ensures value { result ≡ is_cut_line (find (is_line conn) lanes.now) }
{
    match lane_at(lanes, conn) {
        None => false,
        Some(lane) => lane.is_cut(),
    }
}

/// Puts the key of an event of this bit at the end of the list of each connection that is told of
/// it, and answers how many are.
pub fn post(lanes: &mut [Lane], key: usize, bit: u32, but: Option<u32>) -> usize
    requires { HasRoom 1 lanes.old }
    ensures value { result ≡ takers bit but lanes.old }
    ensures state { lanes.new ≡ map (posted_line key bit but) lanes.old }
{
    let mut takers = 0;
    for lane in lanes.iter_mut() {
        if lane.post(key, bit, but) {
            takers += 1;
        }
    }
    takers
}

/// Forgets what waits for the connection.
pub fn clear(lanes: &mut [Lane], conn: ConnId)
    ensures state { lanes.new ≡ map (cleared_line conn) lanes.old }
{
    for lane in lanes.iter_mut() {
        lane.clear(conn);
    }
}

/// Sets the mask of the connection.
pub fn set_mask(lanes: &mut [Lane], conn: ConnId, mask: u32)
    ensures state { lanes.new ≡ map (masked_line conn mask) lanes.old }
{
    for lane in lanes.iter_mut() {
        lane.set_mask(conn, mask);
    }
}

/// Cuts the connections for which so many texts wait, or more, but for the one that is left out.
pub fn cut_full(lanes: &mut [Lane], limit: u32, but: Option<u32>)
    ensures state { lanes.new ≡ map (cut_line limit but) lanes.old }
{
    for lane in lanes.iter_mut() {
        lane.cut_full(limit, but);
    }
}

/// Makes room for so many more keys in each list. At `Err` the first ones have it already.
pub fn reserve(lanes: &mut [Lane], room: u32) -> Result<(), NoMemory>
    ensures ok { OnOk result (lanes.new ≡ map (with_room room) lanes.old) }
    ensures keeps { map (with_room 0) lanes.new ≡ map (with_room 0) lanes.old }
    ensures room { (n : ℕ) → n ≤ room → HasRoom n lanes.old → HasRoom n lanes.new }
{
    for lane in lanes.iter_mut() {
        lane.reserve(room)?;
    }
    Ok(())
}

/// Takes the connection out.
pub fn leave(lanes: &mut Vec<Lane>, conn: ConnId)
    ensures state { lanes.new.items ≡ filter (λ l. not (is_line conn l)) lanes.old.items }
{
    lanes.retain(|lane| is_other(conn, lane));
}

fn is_other(conn: ConnId, lane: &Lane) -> bool
    ensures value { result ≡ not (is_line conn lane.now) }
{
    !lane.is(conn)
}

/// What waits for the connection, with room for `more` further texts.
pub fn waiting(
    alloc: Global,
    lanes: &[Lane],
    store: &Slab<Kept>,
    conn: ConnId,
    more: u32,
) -> Result<Waiting, NoMemory>
    requires { list_any (is_line conn) lanes.now ≡ true }
    ensures said { IfOk result (λ w. w.said.items ≡ said_to conn
        (map (lane_of store.now) lanes.now)) }
    ensures cut { IfOk result (λ w. w.cut ≡ is_cut conn (map (lane_of store.now) lanes.now)) }
    ensures room { IfOk result (λ w. vec_len w.said + more ≤ vec_capacity w.said) }
{
    match lane_at(lanes, conn) {
        None => unreachable!(),
        Some(lane) => Ok(Waiting {
            said: texts(alloc, store, lane.keys(), more)?,
            cut: lane.is_cut(),
        }),
    }
}
